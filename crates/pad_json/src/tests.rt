use super::{
    arrays_have_one_list, compact_texts_spell, name_from, name_value, number_from, read_array,
    read_plain, texts_spell_one_value,
};
use std::test::Fail;

#[test]
fn plain_texts_have_values(rt: HostRuntime) -> Result<(), Fail> {
    let alloc = rt.alloc();
    for (text, want) in [
        (" [ 1 , \"a\\u0062\\n\" , [ ] ] ", Some("[1,\"ab\\n\",[]]")),
        ("\"-\"", Some("\"-\"")),
        ("null", Some("null")),
        ("18446744073709551615", Some("18446744073709551615")),
        ("{\"b\":1,\"a\":2}", Some("{\"a\":2,\"b\":1}")),
        ("", None),
        ("-1", None),
        ("1.0", None),
        ("1e2", None),
        ("true", None),
        ("01", None),
        ("[1,]", None),
        ("\"\\ud83d\"", None),
        ("\u{feff}1", None),
    ] {
        match read_plain(alloc, text)? {
            Some(value) => assert_eq!(rt;
                Some(value.to_string(alloc)?.as_str()),
                want,
                "at {text}"
            ),
            None => assert_eq!(rt; None, want, "at {text}"),
        }
    }
    for (text, want) in [
        ("[1,[2]]", Some(2)),
        ("[]", Some(0)),
        ("1", None),
        ("[1", None),
        ("[-1]", None),
    ] {
        let length = read_array(alloc, text)?.map(|elements| elements.len());
        assert_eq!(rt; length, want, "at {text}");
    }
    Ok(())
}

#[test]
fn nesting_ends_at_a_limit(rt: HostRuntime) -> Result<(), Fail> {
    let alloc = rt.alloc();
    for (levels, want) in [(127, true), (128, false)] {
        let text = format!(in alloc;
            "{}{}",
            "[".repeat(alloc, levels)?.as_str(),
            "]".repeat(alloc, levels)?.as_str()
        )?;
        assert_eq!(rt;
            read_plain(alloc, text.as_str())?.is_some(),
            want,
            "at {levels} levels"
        );
    }
    Ok(())
}

#[test]
fn laws_are_called() {
    compact_texts_spell();
    texts_spell_one_value();
    arrays_have_one_list();
}

#[test]
fn values_are_numbers_and_names(rt: HostRuntime) -> Result<(), Fail> {
    let alloc = rt.alloc();
    for (text, want) in [
        ("0", Some(0)),
        ("4294967295", Some(4_294_967_295)),
        ("4294967296", None),
        ("\"7\"", None),
        ("[7]", None),
    ] {
        let value = read_plain(alloc, text)?.expect(&rt, "a value");
        assert_eq!(rt; number_from(&value), want, "at {text}");
    }
    let digits = "ba7816bf8f01cfea414140de5dae2223b00361a396177a9cb410ff61f20015ad";
    for (text, want) in [
        (format!(in alloc; "\"{digits}\"")?, true),
        (format!(in alloc; "\"{digits}0\"")?, false),
        (
            format!(in alloc; "\"BA{}\"", digits.get(2..).unwrap_or(""))?,
            false,
        ),
        (String::from_str(alloc, "7")?, false),
    ] {
        let value = read_plain(alloc, text.as_str())?.expect(&rt, "a value");
        let name = name_from(&value);
        assert_eq!(rt; name.is_some(), want, "at {text}");
        if let Some(name) = name {
            let again = name_value(alloc, &name)?.to_string(alloc)?;
            assert_eq!(rt; again.as_str(), text.as_str());
        }
    }
    Ok(())
}

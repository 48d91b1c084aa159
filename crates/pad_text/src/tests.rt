use super::{
    Name, Text, is_lower_hex, names_are_ordered_by_digits, plain, texts_are_kept_by_cuts,
    texts_are_kept_by_joins, texts_are_kept_by_utf8,
};
use std::alloc::{AllocError, Global};
use std::test::Fail;

/// The SHA-256 of `abc`.
const ABC: &str = "ba7816bf8f01cfea414140de5dae2223b00361a396177a9cb410ff61f20015ad";

#[test]
fn texts_have_the_hash_of_their_utf8(rt: HostRuntime) -> Result<(), Fail> {
    let alloc = rt.alloc();
    for (string, digits) in [
        (
            "",
            "e3b0c44298fc1c149afbf4c8996fb92427ae41e4649b934ca495991b7852b855",
        ),
        (
            "a",
            "ca978112ca1bbdcafac231b39a23dc4da786eff8147c4e72b9807785afee48bb",
        ),
        ("abc", ABC),
        (
            "hello",
            "2cf24dba5fb0a30e26e83b2ac5b9e29e1b161e5c1fa7425e73043362938b9824",
        ),
        (
            "\u{1f600}",
            "f0443a342c5ef54783a111b51ba56c938e474c32324d90c3a60c9c8e3a37e2d9",
        ),
    ] {
        let text = Text::from_str(alloc, string)?;
        assert_eq!(rt;
            text.hash(alloc)?.hex(alloc)?.as_str(),
            digits,
            "at {string:?}"
        );
        assert_eq!(rt; text.to_string(alloc)?.as_str(), string);
    }
    Ok(())
}

#[test]
fn long_texts_have_the_hash_of_their_utf8(rt: HostRuntime) -> Result<(), Fail> {
    let alloc = rt.alloc();
    for (count, last, digits) in [
        (
            512,
            "",
            "471be6558b665e4f6dd49f1184814d1491b0315d466beea768c153cc5500c836",
        ),
        (
            1500,
            "",
            "b935f6b7a9c56a15e7b99c8d6d4b5e918f5a68fafc4490544a446b2ae47bf809",
        ),
        (
            600,
            "\u{E9}",
            "ad1bce2715cf09cb28fb3c35b7c9f302815ec4cc7724465972e73a898706ee4e",
        ),
    ] {
        let mut string = "a".repeat(alloc, count)?;
        string.push_str(last)?;
        let text = Text::from_str(alloc, string.as_str())?;
        assert_eq!(rt;
            text.hash(alloc)?.hex(alloc)?.as_str(),
            digits,
            "at {count}"
        );
    }
    Ok(())
}

/// Whether units are taken as a text.
fn is_taken(alloc: Global, units: &[u16]) -> Result<bool, AllocError> {
    let units = units.to_vec(alloc)?;
    Ok(Text::try_from_units(units).is_some())
}

#[test]
fn half_a_pair_is_no_text(rt: HostRuntime) -> Result<(), Fail> {
    let alloc = rt.alloc();
    assert!(rt; is_taken(alloc, &[])?);
    assert!(rt; is_taken(alloc, &[0x61, 0xD83D, 0xDE00])?);
    assert!(rt; is_taken(alloc, &[0xD7FF, 0xE000, 0xFFFF])?);
    assert!(rt; !is_taken(alloc, &[0x61, 0xD83D])?);
    assert!(rt; !is_taken(alloc, &[0xDE00])?);
    assert!(rt; !is_taken(alloc, &[0xD83D, 0xD83D, 0xDE00])?);
    assert!(rt; !is_taken(alloc, &[0xD83D, 0xDE00, 0xDE00])?);
    Ok(())
}

#[test]
fn a_scalar_above_the_first_plane_is_a_pair(rt: HostRuntime) -> Result<(), Fail> {
    let alloc = rt.alloc();
    let text = Text::from_str(alloc, "a\u{1f600}")?;
    assert_eq!(rt; text.as_units(), [0x61, 0xD83D, 0xDE00].as_slice());
    assert_eq!(rt; text.len(), 3);
    for (place, cuts) in [(0, false), (1, false), (2, true), (3, false), (4, false)] {
        assert_eq!(rt; text.cuts_pair(place), cuts, "at {place}");
    }

    assert!(rt; !text.cuts_pair(1));
    assert!(rt; !text.cuts_pair(3));
    let scalar = text.slice(alloc, 1, 3)?;
    assert_eq!(rt; scalar.to_string(alloc)?.as_str(), "\u{1f600}");
    assert_eq!(rt; scalar.len(), 2);
    assert_eq!(rt; scalar.copy(alloc)?.as_units(), scalar.as_units());
    assert_eq!(rt; scalar.unit(0), 0xD83D);
    assert_eq!(rt; scalar.into_units().as_slice(), [0xD83D, 0xDE00].as_slice());
    Ok(())
}

#[test]
fn names_are_spelled_in_lower_case_alone(rt: HostRuntime) -> Result<(), Fail> {
    let alloc = rt.alloc();
    let abc = Name::of_bytes(b"abc");
    assert_eq!(rt; abc.hex(alloc)?.as_str(), ABC);
    assert_eq!(rt; Name::from_hex(ABC), Some(abc));
    assert_eq!(rt;
        Name::BASE.hex(alloc)?.as_str(),
        "0000000000000000000000000000000000000000000000000000000000000000"
    );
    assert!(rt; Name::BASE < abc && Name::of_bytes(b"") > abc);
    for other in [
        "",
        "BA7816BF8F01CFEA414140DE5DAE2223B00361A396177A9CB410FF61F20015AD",
        "Ba7816bf8f01cfea414140de5dae2223b00361a396177a9cb410ff61f20015ad",
        "ba7816bf8f01cfea414140de5dae2223b00361a396177a9cb410ff61f20015a",
        "ba7816bf8f01cfea414140de5dae2223b00361a396177a9cb410ff61f20015ad0",
        "ga7816bf8f01cfea414140de5dae2223b00361a396177a9cb410ff61f20015ad",
        " a7816bf8f01cfea414140de5dae2223b00361a396177a9cb410ff61f20015ad",
    ] {
        assert_eq!(rt; Name::from_hex(other), None, "at {other:?}");
    }
    assert!(rt; is_lower_hex("ade0b876903df1a0", 16) && !is_lower_hex("ade0b876903df1a0", 15));
    Ok(())
}

#[test]
fn signs_are_plain_in_strings_alone(rt: HostRuntime) {
    for (text, want) in [
        ("", true),
        ("[2,[],\"\"]", true),
        ("[[0,0,\"e-E+.\"],\"\\u00e9\"]", true),
        ("[[-0,0,\"x\"]]", false),
        ("[[0.0,0,\"x\"]]", false),
        ("[[0e0,0,\"x\"]]", false),
        ("[1E2]", false),
        ("[1E+2]", false),
        ("[true]", false),
        ("[null]", true),
        // a quote that is escaped ends no string, and a backslash that is escaped passes nothing over
        ("\"\\\" - \"", true),
        ("\"\\\\\" - \"\"", false),
        ("\"\\\\\\\" - \"", true),
        // a string that never ends
        ("\"-", true),
    ] {
        assert_eq!(rt; plain(text), want, "at {text}");
    }
}

#[test]
fn laws_are_called() {
    names_are_ordered_by_digits();
    texts_are_kept_by_utf8();
    texts_are_kept_by_cuts();
    texts_are_kept_by_joins();
}

use crate::generate;
use sha2::{Digest, Sha256};
use std::test::Fail;

/// For a number and a count the SHA-256 of the contents, a line each, by another program (`tests/generator.py --sums`).
const SUMS: [(u64, u32, &str); 9] = [
    (
        7,
        1,
        "f677b70e85638fa20c8ec7aac24a1e362da1f8033778552529b55337552392e6",
    ),
    (
        7,
        2,
        "975b9fed77339e535ffd567a3ea40f6e9e15e140ed7851cf37f395471ac70505",
    ),
    (
        7,
        16,
        "2e015f3dcd8e0dfabc48784a3b7bd54d59181398b8b82841a331e4fd5bd3b03d",
    ),
    (
        7,
        17,
        "e7e8a21b4593c4a8ddec8a8193fd05e12cb6e6b913f74d2c3b782ed17de4b267",
    ),
    (
        7,
        50,
        "fa230bfff3c96dc2826a4758ecda81cfd7a0a613b459f912e0e091998e689421",
    ),
    (
        7,
        51,
        "e8a5e371acaf58ef137047df58c2841fccf0701503022cbbee04b627a50a3487",
    ),
    (
        7,
        100,
        "798901c32a46886d1e138f7be2ea6ede8702b7b02e320e085cd6749454821b42",
    ),
    (
        7,
        1000,
        "dc48b78a313a1e7b5607c9cd3e54c665a5d01e4c0de67389d2c9218885c78d3e",
    ),
    (
        u64::MAX,
        100,
        "8c7c6cc57f7704f1e33549aa8fdcd8ec40a7362a553be236ea76350b51555832",
    ),
];

#[test]
fn contents_are_those_of_another_program(rt: HostRuntime) -> Result<(), Fail> {
    let alloc = rt.alloc();
    for (number, count, sum) in SUMS {
        assert!(rt; 1 <= count && count <= crate::MOST_MESSAGES);
        let contents = generate(alloc, number, count)?;
        let mut hasher = Sha256::new();
        for content in contents.as_slice() {
            hasher.update(content.as_str().as_bytes());
            hasher.update(b"\n");
        }
        assert_eq!(rt;
            hex::encode(alloc, hasher.finalize().as_slice())?.as_str(),
            sum
        );
    }
    Ok(())
}

use pb_cli_answers::{Generators, word};

/// The first words that the generator's authors print for the seed 42 and the stream 54.
#[test]
fn words_are_those_of_the_generator(rt: HostRuntime) {
    let generators = Generators::new();
    for (count, expected) in [
        (0, 0xa15c02b7),
        (1, 0x7b47f409),
        (4, 0xbfa4784b),
        (5, 0xcbed606e),
    ] {
        assert!(rt; word(42, 54, count) == expected);
        assert!(rt; generators.word(42, 54, count) == expected);
    }
}

/// Words in order, twice, back, of other ranks and seeds between, and behind the last number that there is.
#[test]
fn a_place_changes_no_word(rt: HostRuntime) {
    let generators = Generators::new();
    for (seed, rank, count) in [
        (1, 0, 0),
        (1, 0, 1),
        (1, 0, 1),
        (1, 0, 2),
        (1, 1, 3),
        (1, 0, 3),
        (2, 0, 4),
        (1, 0, 4),
        (1, 0, 2),
        (1, u32::MAX, 3),
        (u64::MAX, u32::MAX, 4),
        (1, 0, u64::MAX),
        (1, 0, 0),
        (1, 0, 1),
    ] {
        assert!(rt; generators.word(seed, rank, count) == word(seed, rank, count));
    }
}

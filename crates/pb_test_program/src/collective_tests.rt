use crate::worlds::{options, plays_greatest_by_rank, protocol};
use pb_io::NoMemory;
use std::alloc::Global;

#[test]
fn a_message_of_signed_words(rt: HostRuntime) -> Result<(), NoMemory> {
    let file = protocol(rt.alloc(), "2..max", "  A(int32[2]) from W[0] to W[1];")?;
    let answer = "0\n0 send 1 A -1 -1\n1 recv 0 A -1 -1\nended\n";
    assert!(rt; plays_greatest_by_rank(rt.alloc(), file.as_str(), options(2), answer)?);
    Ok(())
}

/// Collectives of three ranks whose words are the greatest ones, and what is answered.
const OF_GREATEST: &str = "\
reduce S(uint32) with sum to W[0];
=> 0
0 enter S 4294967295
0 leave S 4294967293
1 enter S 4294967295
1 leave S
2 enter S 4294967295
2 leave S
ended
--
reduce S(int32) with max to W[0];
=> 0
0 enter S -1
0 leave S -1
1 enter S -1
1 leave S
2 enter S -1
2 leave S
ended
--
reduce S(int32) with min to W[0];
=> 0
0 enter S -1
0 leave S -1
1 enter S -1
1 leave S
2 enter S -1
2 leave S
ended
";

fn is_so_of_greatest(alloc: Global, row: &str) -> Result<bool, NoMemory> {
    let Some((body, answer)) = row.split_once("=> ") else {
        return Ok(false);
    };
    let file = protocol(alloc, "3..3", body)?;
    plays_greatest_by_rank(alloc, file.as_str(), options(3), answer)
}

#[test]
fn reductions_of_the_greatest_word(rt: HostRuntime) -> Result<(), NoMemory> {
    for row in OF_GREATEST.split("--\n") {
        assert!(rt; is_so_of_greatest(rt.alloc(), row)?, "{row}");
    }
    Ok(())
}

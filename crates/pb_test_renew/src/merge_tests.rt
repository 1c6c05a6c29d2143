use crate::files::{K, L, OTHER_K, has_part, joined, wanted_of};
use pb_renew_merge::{KernelFault, left_for, renew_text};
use std::test::Fail;

#[test]
fn bodies_stay_where_their_functions_do(rt: HostRuntime) -> Result<(), Fail> {
    let prelude = b"/*@ prelude */\n#include <stdio.h>\n/*@ end */\n";
    let old = joined(rt.alloc(), prelude, K)?;
    let wanted = wanted_of(rt.alloc(), &["M", "K"])?;
    let renewal = renew_text(rt.alloc(), &wanted, &old)?;
    for part in [prelude.as_slice(), K, b"/*@ kernel k_M */\n/*@ end */\n"] {
        assert!(rt; has_part(Some(&renewal.text), part));
    }
    assert!(rt; renewal.gone.is_empty());
    let again = renew_text(rt.alloc(), &wanted, &renewal.text)?;
    assert!(rt; again.text.as_slice() == renewal.text.as_slice());
    Ok(())
}

#[test]
fn what_is_gone_stands_behind_what_was_left(rt: HostRuntime) -> Result<(), Fail> {
    let old = joined(rt.alloc(), L, K)?;
    let wanted = wanted_of(rt.alloc(), &[])?;
    let renewal = renew_text(rt.alloc(), &wanted, &old)?;
    // What was left, and what is put between it and K.
    let rows: [(&[u8], &[u8]); 5] = [
        (b"", L),
        (b"a note\n", L),
        (b"a note", b"\n/*@ kernel k_L */\n/*@ end */\n"),
        (
            b"/*@ kernel k_Z */\n/*@ end */",
            b"\n/*@ kernel k_L */\n/*@ end */\n",
        ),
        (L, b""),
    ];
    for (before, between) in rows {
        let left = left_for(rt.alloc(), &renewal, before)?;
        let mut wanted = joined(rt.alloc(), before, between)?;
        wanted.extend_from_slice(K)?;
        assert!(rt; left.as_slice() == wanted.as_slice());
    }
    let twice = left_for(rt.alloc(), &renewal, OTHER_K).err();
    assert!(rt; matches!(&twice, Some(KernelFault::Twice(_))));
    Ok(())
}

use crate::text::Text;
use pb_core_language::CoreRole;
use pb_plain_rules::Breach;
use pb_text::NoMemory;

/// The line of each broken rule: the rule, its place, N, and the rank where the rule speaks of one.
pub fn put_broken(
    text: &mut Text,
    roles: &[CoreRole],
    n: i64,
    broken: &[Breach],
) -> Result<(), NoMemory> {
    text.put_count(b"broken ", broken.len())?;
    for breach in broken {
        text.put(b"rule ")?;
        text.put_number(u64::from(breach.rule))?;
        text.put_place(breach.mark.place)?;
        text.put(b", N = ")?;
        text.put_signed(n)?;
        put_seat_if(text, roles, breach)?;
        text.put(b"\n")?;
    }
    Ok(())
}

fn put_seat_if(text: &mut Text, roles: &[CoreRole], breach: &Breach) -> Result<(), NoMemory> {
    match &breach.at {
        Some(seat) => {
            text.put(b", ")?;
            text.put_seat(roles, seat)
        }
        None => Ok(()),
    }
}

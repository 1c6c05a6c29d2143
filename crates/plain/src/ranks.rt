use crate::text::Text;
use pb_core_language::CoreRole;
use pb_plain::Seat;
use pb_text::NoMemory;

/// The line of each rank: its number, its role and its index.
pub fn put_ranks(text: &mut Text, roles: &[CoreRole], ranks: &[Seat]) -> Result<(), NoMemory> {
    text.put_count(b"ranks ", ranks.len())?;
    for (number, seat) in ranks.iter().enumerate() {
        text.put(b"rank ")?;
        text.put_number(number as u64)?;
        text.put(b" ")?;
        text.put_seat(roles, seat)?;
        text.put(b"\n")?;
    }
    Ok(())
}

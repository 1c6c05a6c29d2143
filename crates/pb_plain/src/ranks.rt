ghost use Rattle.std.specs.Prelude.{◌≡◌, ◌++◌, pos, map, length, IfOk, OnOk};
ghost use Rattle.pb_affine.specs.Values.{IsNear};
ghost use Rattle.pb_core_language.specs.Ranks.{seats, seat_eq, number_in};
ghost use Rattle.pb_plain.specs.View.{seat_of, seats_of, seats_of_role};

use crate::{NoMemory, Seat, range, value};
use pb_core_language::CoreRole;
use std::alloc::Global;

/// All ranks at N = n, within 2^40 of zero, in the order of their numbers: roles in declared order, indices ascending.
pub fn seats(alloc: Global, roles: &[CoreRole], n: i64) -> Result<Vec<Seat>, NoMemory>
    requires { IsNear n }
    ensures { IfOk result (λ v. map seat_of v.items ≡ seats roles.now n) }
{
    let mut list = Vec::new(alloc);
    for (number, role) in roles.iter().enumerate() {
        add_role(&mut list, alloc, number as u64, role, n)?;
    }
    Ok(list)
}

fn add_role(
    list: &mut Vec<Seat>,
    alloc: Global,
    number: u64,
    role: &CoreRole,
    n: i64,
) -> Result<(), NoMemory>
    requires { IsNear n }
    ensures { OnOk result (map seat_of list.new.items ≡ map seat_of list.old.items ++ seats_of number role.now n) }
{
    let low = value(role.low, n, 0);
    let high = value(role.high, n, 0);
    let indices = range(alloc, low, high)?;
    add_indices(list, number, &indices)
}

fn add_indices(list: &mut Vec<Seat>, role: u64, indices: &[i64]) -> Result<(), NoMemory>
    ensures { OnOk result (map seat_of list.new.items ≡ map seat_of list.old.items ++ seats_of_role role indices.now) }
{
    for index in indices {
        list.push(Seat {
            role,
            index: *index,
        })?;
    }
    Ok(())
}

/// A seat's position in the list, which is its rank's number; the list's length where it isn't there.
pub fn number_in(seat: &Seat, seats: &[Seat]) -> u64
    ensures { result ≡ number_in (seat_of seat.now) (map seat_of seats.now) }
{
    for (number, other) in seats.iter().enumerate() {
        if is_same(seat, other) {
            return number as u64;
        }
    }
    seats.len() as u64
}

/// Whether the seats are the same.
pub fn is_same(a: &Seat, b: &Seat) -> bool
    ensures { result ≡ seat_eq (seat_of a.now) (seat_of b.now) }
{
    a.role == b.role && a.index == b.index
}

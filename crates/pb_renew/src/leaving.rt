//! What OUT.left gets.

ghost use Rattle.std.specs.Prelude.{◌≡◌, ◌≤◌, ◌≢◌, [], ℕ, List, IfErr, IfOk, IfSome, true, false};
ghost use Rattle.std.specs.Option.{option_map};
ghost use Rattle.std.specs.String.{string_bytes};
ghost use Rattle.pb_io.specs.Files.{content_of, file_of};
ghost use Rattle.pb_renew_text.specs.declared.wanted.Wanted.{Wanted};
ghost use Rattle.pb_renew.specs.Places.{IsThere};
ghost use Rattle.pb_renew.specs.Plans.{LeavesAs, WasBefore};
ghost use Rattle.pb_renew.specs.Reasons.{IsNoLeft, IsRead, IsReasonWith};
ghost use Rattle.pb_renew_laws.specs.Bodies.{SavesIn};
ghost use Rattle.pb_renew_merge.specs.Lost.{NothingLost};
ghost use Rattle.pb_renew_merge.specs.Renewed.{IsLeft, IsRenewal};
ghost use Rattle.pb_renew_put.specs.Jobs.{behind_of};

use crate::content::{MOST_BYTES, bytes_in, content};
use crate::losing::Losing;
use crate::place::Place;
use crate::unrenewed::Unrenewed;
use pb_io::Folder;
use pb_kernels::KName;
use pb_renew_lines::first_indented;
use pb_renew_merge::{Renewed, left_for};
use pb_renew_put::Leaving;
use std::alloc::Global;

/// What becomes of OUT.left: nothing, where no body is gone.
pub fn leaving_of<F: Folder>(
    alloc: Global,
    folder: &mut F,
    place: &Place,
    renewed: &Renewed,
    losing: Losing,
) -> Result<Option<Leaving>, Unrenewed>
    ensures leaving { IfOk result (λ leaving. LeavesAs renewed.now.gone.items renewed.now (option_map behind_of leaving)) }
    ensures before { IfOk result (λ leaving. IfSome (F.holds folder.old) (λ files. IsThere (string_bytes place.now.left) place.now.is_left files → WasBefore (option_map behind_of leaving) (file_of files (string_bytes place.now.left)))) }
    ensures sound { IfOk result (λ leaving. (old : List ℕ) → (wanted : Wanted) → IsRenewal old wanted renewed.now → SavesIn (option_map behind_of leaving) old renewed.now.text.items) }
    ensures refused { IfErr result (λ why. IfSome (F.holds folder.old) (λ files. IsThere (string_bytes place.now.left) place.now.is_left files
        → (old : List ℕ) → (wanted : Wanted) → IsRenewal old wanted renewed.now → IsReasonWith losing old (content_of files (string_bytes place.now.left)) wanted why)) }
    ensures read { IfErr result (λ why. IsRead why (F.faults folder.old) (F.faults folder.new)) }
    ensures holds { F.holds folder.new ≡ F.holds folder.old }
    ensures later { F.faults folder.old ≤ F.faults folder.new }
{
    if !is_some(&renewed.gone) {
        return Ok(None);
    }
    let before = match content(alloc, folder, &place.left, place.is_left) {
        Ok(before) => before,
        Err(why) => return Err(why),
    };
    match left_of(alloc, renewed, bytes_in(&before), losing) {
        Ok(bodies) => Ok(Some(Leaving { before, bodies })),
        Err(why) => Err(why),
    }
}

/// True where there are some names.
#[tactic(auto, using(crate::proofs::Reasons::none_in, crate::proofs::Reasons::gone_some))]
fn is_some(names: &[KName]) -> bool
    ensures none { result ≡ false → names.now ≡ [] }
    ensures some { result ≡ true → names.now ≢ [] }
{
    !names.is_empty()
}

/// The bytes of an OUT.left that had these, with the bodies that are gone behind them.
fn left_of(
    alloc: Global,
    renewed: &Renewed,
    before: &[u8],
    losing: Losing,
) -> Result<Vec<u8>, Unrenewed>
    ensures bytes { IfOk result (λ left. IsLeft renewed.now before.now left.items) }
    ensures lost { IfOk result (λ left. (old : List ℕ) → (wanted : Wanted) → IsRenewal old wanted renewed.now → NothingLost old renewed.now.text.items left.items) }
    ensures keeps { IfOk result (λ left. NothingLost before.now left.items []) }
    ensures adds { IfOk result (λ left. (old : List ℕ) → (wanted : Wanted) → IsRenewal old wanted renewed.now → NothingLost left.items before.now old) }
    ensures fault { IfErr result (λ why. IsNoLeft why losing renewed.now before.now) }
{
    if let (Losing::Refused, Some(line)) = (losing, first_indented(before)) {
        return Err(Unrenewed::LeftIndented(line));
    }
    match left_for(alloc, renewed, before) {
        Ok(bodies) => {
            if bodies.len() > MOST_BYTES as usize {
                Err(Unrenewed::TooLong)
            } else {
                Ok(bodies)
            }
        }
        Err(fault) => Err(Unrenewed::no_left(fault)),
    }
}

ghost use Rattle.pb_cread_small.specs.Laws.{SmallIsRead, SmallKeepsLimits};

use pb_cread_unique::no_fault_of_a_spelling;

/// The text of a program of at most 50,000 statements, in which at most 255 braces are open, keeps the limits of a text.
pub fn small_keeps_limits()
    ensures { SmallKeepsLimits }
{}

/// Of the text of a program with at most 50,000 statements, and at most 255 braces open inside its main, no fault is true but
/// want of memory: the reader of texts takes it.
pub fn small_is_read()
    ensures { SmallIsRead }
{
    small_keeps_limits();
    no_fault_of_a_spelling();
}

ghost use Rattle.std.specs.Prelude.{◌≡◌, nat_eq, codes, drop};
ghost use Rattle.std.specs.List.{list_any};
ghost use Rattle.std.specs.Cmp.Lexicographic.{pointwise};
ghost use Rattle.pb_local.specs.Tree.{program_of};
ghost use Rattle.pb_text_read.specs.Fronts.{strip};
ghost use Rattle.pb_types_fit.specs.Taken.{found, stands_first, stands_in, own_words, keywords, library_words, any_rest, is_word_taken, is_reserved, has_role, has_label, has_kernel, is_of_role, is_of_kernel, is_of_label, is_taken};

use pb_local::Local;
use pb_text_read::strip;

#[tactic(auto, unfolding(crate::specs::Taken::own_words))]
fn own_words() -> &'static [u8]
    ensures { result.now ≡ own_words }
{
    b" is ir us ur main argc argv size rank N R I a i st x role index to_role to_index from_role from_index v count most "
}

#[tactic(auto, unfolding(crate::specs::Taken::keywords))]
fn keywords() -> &'static [u8]
    ensures { result.now ≡ keywords }
{
    b" alignas alignof auto bool break case char const constexpr continue default do double else enum extern false float for goto if inline int long nullptr register restrict return short signed sizeof static static_assert struct switch thread_local true typedef typeof typeof_unqual union unsigned void volatile while asm linux unix i386 "
}

#[tactic(auto, unfolding(crate::specs::Taken::library_words))]
fn library_words() -> &'static [u8]
    ensures { result.now ≡ library_words }
{
    b" NULL EOF BUFSIZ FILE FILENAME_MAX FOPEN_MAX L_tmpnam SEEK_CUR SEEK_END SEEK_SET TMP_MAX stderr stdin stdout clearerr fclose feof ferror fflush fgetc fgetpos fgets fopen fprintf fputc fputs fread freopen fscanf fseek fsetpos ftell fwrite getc getchar gets perror printf putc putchar puts remove rename rewind scanf setbuf setvbuf snprintf sprintf sscanf tmpfile tmpnam ungetc vfprintf vfscanf vprintf vscanf vsnprintf vsprintf vsscanf "
}

fn stands_first(word: &[u8], text: &[u8]) -> bool
    ensures { result ≡ stands_first word.now text.now }
{
    let Some(rest) = strip(b" ", text) else {
        return false;
    };
    let Some(more) = strip(word, rest) else {
        return false;
    };
    strip(b" ", more).is_some()
}

// Whether the word stands in the text, between blanks.
fn stands_in(word: &[u8], text: &[u8]) -> bool
    ensures { result ≡ stands_in word.now text.now }
{
    for at in 0..text.len() {
        if stands_first(word, &text[at..]) {
            return true;
        }
    }
    false
}

fn is_word_taken(name: &[u8]) -> bool
    ensures { result ≡ is_word_taken name.now }
{
    stands_in(name, own_words()) || stands_in(name, keywords()) || stands_in(name, library_words())
}

fn begins(front: &[u8], name: &[u8]) -> bool
    ensures { result ≡ found (strip front.now name.now) any_rest }
{
    strip(front, name).is_some()
}

fn is_reserved(name: &[u8]) -> bool
    ensures { result ≡ is_reserved name.now }
{
    begins(b"_", name)
        || begins(b"MPI_", name)
        || begins(b"PMPI_", name)
        || begins(b"PABBLE_", name)
        || begins(b"pabble_", name)
        || name.ends_with(b"_t")
}

fn has_role(local: &Local, name: &[u8]) -> bool
    ensures { result ≡ has_role (program_of local.now) name.now }
{
    for role in &local.roles {
        if role.name.bytes() == name {
            return true;
        }
    }
    false
}

fn has_label(local: &Local, name: &[u8]) -> bool
    ensures { result ≡ has_label (program_of local.now) name.now }
{
    for label in &local.labels {
        if label.name.bytes() == name {
            return true;
        }
    }
    false
}

fn has_kernel(local: &Local, name: &[u8]) -> bool
    ensures { result ≡ has_kernel (program_of local.now) name.now }
{
    for kernel in &local.kernels {
        if kernel.name.bytes() == name {
            return true;
        }
    }
    false
}

// Whether the name is this text and then that of a role.
fn is_role_behind(local: &Local, front: &[u8], name: &[u8]) -> bool
    ensures { result ≡ found (strip front.now name.now) (has_role (program_of local.now)) }
{
    match strip(front, name) {
        Some(rest) => has_role(local, rest),
        None => false,
    }
}

fn is_kernel_behind(local: &Local, front: &[u8], name: &[u8]) -> bool
    ensures { result ≡ found (strip front.now name.now) (has_kernel (program_of local.now)) }
{
    match strip(front, name) {
        Some(rest) => has_kernel(local, rest),
        None => false,
    }
}

fn is_label_behind(local: &Local, front: &[u8], name: &[u8]) -> bool
    ensures { result ≡ found (strip front.now name.now) (has_label (program_of local.now)) }
{
    match strip(front, name) {
        Some(rest) => has_label(local, rest),
        None => false,
    }
}

fn is_of_kernel(local: &Local, name: &[u8]) -> bool
    ensures { result ≡ is_of_kernel (program_of local.now) name.now }
{
    is_kernel_behind(local, b"k_", name) || is_kernel_behind(local, b"c_", name)
}

fn is_of_label(local: &Local, name: &[u8]) -> bool
    ensures { result ≡ is_of_label (program_of local.now) name.now }
{
    is_label_behind(local, b"make_", name)
        || is_label_behind(local, b"take_", name)
        || is_label_behind(local, b"room_", name)
        || is_label_behind(local, b"s_", name)
        || is_label_behind(local, b"t_", name)
        || is_label_behind(local, b"n_", name)
}

/// Whether a constant can't have the name.
pub fn is_taken(local: &Local, name: &[u8]) -> bool
    ensures { result ≡ is_taken (program_of local.now) name.now }
{
    is_word_taken(name)
        || is_reserved(name)
        || is_role_behind(local, b"r_", name)
        || is_of_kernel(local, name)
        || is_of_label(local, name)
}

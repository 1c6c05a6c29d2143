ghost use Rattle.std.specs.Prelude.{◌≡◌, ◌<◌, ◌++◌, [], ◌∷◌, Some, true, false, OnOk, length, slice_get};
ghost use Rattle.pb_ctree.specs.Bodies.{is_body};
ghost use Rattle.pb_kernels.specs.Names.{is_among, body_of, names_of, same_words, same_name};

use crate::{Body, KName, Name, NoMemory};
use indexmap::IndexMap;
use std::alloc::Global;
use std::marker::Model;

/// A body of a kernel file, with its name.
#[derive(Drop)]
pub struct NamedBody {
    pub name: KName,
    pub body: Body,
}

/// The bodies of a kernel file in its order, no two with one name.
#[derive(Drop)]
pub struct KernelFile {
    bodies: IndexMap<KName, Body>,
}

impl Model for KernelFile {
    ghost use Rattle.std.specs.Prelude.{List, IsTrue};
    ghost use Rattle.pb_kernels.specs.declared.file.NamedBody.{NamedBody};
    ghost use Rattle.pb_kernels.specs.Names.{are_distinct, named_bodies};

    ghost Value = { List NamedBody };

    ghost view = { λ f. named_bodies f.bodies.entries };

    ghost invariant = { λ f. IsTrue (are_distinct (named_bodies f.bodies.entries)) };
}

impl KernelFile {
    ghost use Rattle.pb_kernels.specs.Names.{is_among, body_of, names_of};

    /// A file without a body. Takes no memory.
    pub(crate) fn new(alloc: Global) -> KernelFile
        ensures { result ≡ [] }
    {
        KernelFile {
            bodies: IndexMap::new(alloc),
        }
    }

    /// One more body, behind the others.
    pub(crate) fn push(&mut self, body: NamedBody) -> Result<(), NoMemory>
        requires { is_among body.name self.old ≡ false }
        ensures { OnOk result (self.new ≡ self.old ++ body ∷ []) }
    {
        let NamedBody { name, body } = body;
        match self.bodies.insert(name, body) {
            Ok(_) => Ok(()),
            Err(_) => Err(NoMemory),
        }
    }

    /// The number of bodies.
    pub fn len(&self) -> usize
        ensures { result ≡ length self.now }
    {
        self.bodies.len()
    }

    /// The name of the body at a place, in the file's order.
    pub fn name_at(&self, place: usize) -> KName
        requires { place < length self.now }
        ensures { slice_get (names_of self.now) place ≡ Some result }
    {
        match self.bodies.get_index(place) {
            Some((name, _)) => *name,
            None => unreachable!(),
        }
    }

    /// True where the file has a body with this name.
    pub fn has(&self, name: &KName) -> bool
        ensures { result ≡ is_among name.now self.now }
    {
        self.bodies.contains_key(name)
    }

    /// The bytes of the body with this name; none where the file lacks it.
    pub fn bytes_of(&self, name: &KName) -> &[u8]
        ensures same { result.now ≡ body_of name.now self.now }
        ensures whole { is_body result.now ≡ true }
    {
        match self.bodies.get(name) {
            Some(body) => body.bytes(),
            None => b"",
        }
    }
}

/// True where two names are the same.
pub fn same_name(a: &KName, b: &KName) -> bool
    ensures { result ≡ same_name a.now b.now }
{
    a.kind == b.kind && same_words(&a.name, &b.name)
}

fn same_words(a: &Option<Name>, b: &Option<Name>) -> bool
    ensures { result ≡ same_words a.now b.now }
{
    match a {
        None => b.is_none(),
        Some(word) => match b {
            None => false,
            Some(other) => word.bytes() == other.bytes(),
        },
    }
}

ghost use Rattle.std.specs.Prelude.{◌≡◌, ◌≤◌, ◌<◌, [], ◌++◌, length, take, min};
ghost use Rattle.std.specs.Option.{option_map};
ghost use Rattle.pb_io.specs.Files.{file_of};
ghost use Rattle.pb_io.specs.Passed.{count_after};
ghost use Rattle.pb_io.specs.Entries.{entries, bytes_at, place_bytes};

use crate::MemFile;
use crate::calls::count_bytes;

/// Files in memory, of which one may be open.
#[derive(Drop)]
pub struct Shelf {
    files: Vec<MemFile>,
    current: Option<usize>,
    position: usize,
    passed: u64,
    ghost in_file: { position ≤ length (bytes_at files.items current) },
}

impl Shelf {
    ghost use Rattle.pb_io.specs.Shelf.{shelf_files, shelf_left, shelf_bytes};

    /// The files, none of them open.
    pub fn new(files: Vec<MemFile>) -> Shelf
        ensures files { shelf_files result ≡ entries files.items }
        ensures left { shelf_left result ≡ [] }
    {
        Shelf {
            files,
            current: None,
            position: 0,
            passed: 0,
        }
    }

    /// The place of the first file with this name.
    pub fn place_of(&self, name: &str) -> Option<usize>
        ensures { option_map (λ place. shelf_bytes self.now (Some place)) result ≡ file_of (shelf_files self.now) name.now }
    {
        first_place(&self.files, name)
    }

    /// Opens the file at this place, and an empty one without a place.
    pub fn open_at(&mut self, place: Option<usize>)
        ensures files { shelf_files self.new ≡ shelf_files self.old }
        ensures left { shelf_left self.new ≡ shelf_bytes self.old place }
        ensures passed { self.new.passed ≡ self.old.passed }
    {
        self.position = 0;
        self.current = place;
    }

    /// Reads as many bytes of the open file as there are and the buffer has room for.
    pub fn read(&mut self, buf: &mut [u8]) -> usize
        ensures files { shelf_files self.new ≡ shelf_files self.old }
        ensures count { result ≡ min (length buf.old) (length (shelf_left self.old)) }
        ensures bytes { shelf_left self.old ≡ take result buf.new ++ shelf_left self.new }
        ensures passed { self.new.passed ≡ count_after self.old.passed result }
    {
        let rest = self.rest();
        let count = rest.len().min(buf.len());
        buf[..count].copy_from_slice(&rest[..count]);
        self.position += count;
        count_bytes(&mut self.passed, count);
        count
    }

    fn rest(&self) -> &[u8]
        ensures { result.now ≡ shelf_left self.now }
    {
        match self.current {
            Some(place) => &file_bytes(&self.files, place)[self.position..],
            None => &[],
        }
    }
}

/// The place of the first file with this name.
fn first_place(files: &[MemFile], name: &str) -> Option<usize>
    ensures { option_map (λ place. place_bytes files.now place) result ≡ file_of (entries files.now) name.now }
{
    for (place, file) in files.iter().enumerate() {
        if file.name.as_str() == name {
            return Some(place);
        }
    }
    None
}

/// The bytes of the file at this place, and none past the end.
fn file_bytes(files: &[MemFile], place: usize) -> &[u8]
    ensures { result.now ≡ place_bytes files.now place }
{
    match files.get(place) {
        Some(file) => &file.bytes,
        None => &[],
    }
}

//! The lines before the statements that are settled by the rows.

ghost use Rattle.pb_cread_frame.specs.Views.{IsReader};

use pb_cprint::{
    push_index_is, push_kernel_marker, push_make_head, push_make_marker, push_n_divided,
    push_n_single, push_place, push_place_head, push_rank, push_role_is, push_take_head,
    push_take_marker, push_test_size,
};
use pb_cread_frame::FrameReader;
use pb_ctree::{CoreKernel, CoreLabel, Formula, NRange, NoMemory, Role, number_roles};
use std::alloc::Global;

/// Lines that are the same in each text, but for those that may stand in place of others. The end of a body comes first: a
/// body takes most lines.
const FIXED: [&[u8]; 21] = [
    b"/*@ end */\n",
    b"/* pabble 1 */\n",
    b"#include <stdint.h>\n",
    b"static int32_t is[1024], ir[1024];\n",
    b"static uint32_t us[1024], ur[1024];\n",
    b"/*@ prelude */\n",
    b"{\n",
    b"}\n",
    b"  int size, rank;\n",
    b"  int32_t N, R, I, a, i;\n",
    b"  MPI_Status st;\n",
    b"  MPI_Init(&argc, &argv);\n",
    b"  MPI_Comm_size(MPI_COMM_WORLD, &size);\n",
    b"  MPI_Comm_rank(MPI_COMM_WORLD, &rank);\n",
    b"  R = 0;\n",
    b"  I = 0;\n",
    b"  a = 0;\n",
    b"  i = 0;\n",
    b"    MPI_Abort(MPI_COMM_WORLD, 2);\n",
    b"  }\n",
    b"    R = 0;\n",
];

/// Lines, one after the other.
#[derive(Drop)]
pub struct Settled {
    alloc: Global,
    pub lines: Vec<Vec<u8>>,
}

impl Settled {
    fn push_fixed(&mut self, text: &[u8]) -> Result<(), NoMemory> {
        let mut line = Vec::new(self.alloc);
        line.extend_from_slice(text)?;
        self.lines.push(line)?;
        Ok(())
    }

    fn push_all_fixed(&mut self) -> Result<(), NoMemory> {
        for text in FIXED {
            self.push_fixed(text)?;
        }
        Ok(())
    }

    /// Those of a role, of which the first rank has the number `base`, and which is the one with this number.
    fn push_role(
        &mut self,
        role: &Role,
        at: usize,
        base: Formula,
        place: Formula,
    ) -> Result<(), NoMemory> {
        let mut head = Vec::new(self.alloc);
        push_place_head(&mut head, role)?;
        self.lines.push(head)?;
        let mut value = Vec::new(self.alloc);
        push_place(&mut value, place)?;
        self.lines.push(value)?;
        let mut test = Vec::new(self.alloc);
        push_rank(&mut test, base)?;
        self.lines.push(test)?;
        let mut number = Vec::new(self.alloc);
        push_role_is(&mut number, at)?;
        self.lines.push(number)?;
        let mut index = Vec::new(self.alloc);
        push_index_is(&mut index, place)?;
        self.lines.push(index)?;
        Ok(())
    }

    /// Those of the size of all ranks.
    fn push_size(&mut self, range: NRange, size: Formula) -> Result<(), NoMemory> {
        let mut single = Vec::new(self.alloc);
        push_n_single(&mut single, range)?;
        self.lines.push(single)?;
        let mut divided = Vec::new(self.alloc);
        push_n_divided(&mut divided, size)?;
        self.lines.push(divided)?;
        let mut test = Vec::new(self.alloc);
        push_test_size(&mut test, range, size)?;
        self.lines.push(test)?;
        Ok(())
    }

    /// Those of a label.
    fn push_label(&mut self, label: &CoreLabel) -> Result<(), NoMemory> {
        let mut make = Vec::new(self.alloc);
        push_make_head(&mut make, label)?;
        self.lines.push(make)?;
        let mut made = Vec::new(self.alloc);
        push_make_marker(&mut made, label)?;
        self.lines.push(made)?;
        let mut take = Vec::new(self.alloc);
        push_take_head(&mut take, label)?;
        self.lines.push(take)?;
        let mut taken = Vec::new(self.alloc);
        push_take_marker(&mut taken, label)?;
        self.lines.push(taken)?;
        Ok(())
    }

    fn push_labels(&mut self, labels: &[CoreLabel]) -> Result<(), NoMemory> {
        for label in labels {
            self.push_label(label)?;
        }
        Ok(())
    }

    fn push_kernels(&mut self, kernels: &[CoreKernel]) -> Result<(), NoMemory> {
        for kernel in kernels {
            let mut marker = Vec::new(self.alloc);
            push_kernel_marker(&mut marker, kernel)?;
            self.lines.push(marker)?;
        }
        Ok(())
    }

    fn push_roles(
        &mut self,
        roles: &[Role],
        bases: &[Formula],
        places: &[Formula],
    ) -> Result<(), NoMemory> {
        for (at, role) in roles.iter().enumerate() {
            if let (Some(base), Some(place)) = (bases.get(at), places.get(at)) {
                self.push_role(role, at, *base, *place)?;
            }
        }
        Ok(())
    }

    /// All lines that may be settled by the rows that a reader has read: where it takes one of them, it takes no other line.
    /// `/*@ end */` besides ends a body.
    pub fn of(alloc: Global, reader: &FrameReader) -> Result<Settled, NoMemory>
        requires { IsReader reader.now }
    {
        let mut settled = Settled {
            alloc,
            lines: Vec::new(alloc),
        };
        let mut bases = Vec::new(alloc);
        let mut places = Vec::new(alloc);
        let size = number_roles(&reader.local.roles, &mut bases, &mut places)?;
        settled.push_all_fixed()?;
        settled.push_roles(&reader.local.roles, bases.as_slice(), places.as_slice())?;
        settled.push_size(reader.local.range, size)?;
        settled.push_labels(&reader.local.labels)?;
        settled.push_kernels(&reader.local.kernels)?;
        Ok(settled)
    }
}

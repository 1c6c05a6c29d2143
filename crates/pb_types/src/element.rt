ghost use Rattle.std.specs.Prelude.{◌≡◌, ◌≤◌, find, nat_eq, length};
ghost use Rattle.std.specs.Cmp.Lexicographic.{pointwise};
ghost use Rattle.pb_types.specs.Elements.{elements, spelling, c_name, mpi_name, size, is_complex, element_named};

/// What a message of a typed label holds, one beside the other.
#[derive(Clone, Copy, PartialEq, Eq)]
pub enum Element {
    Int8,
    Int16,
    Int32,
    Int64,
    Uint8,
    Uint16,
    Uint32,
    Uint64,
    Float,
    Double,
    FloatComplex,
    DoubleComplex,
}

impl Element {
    /// All types of elements.
    #[tactic(auto, unfolding(crate::specs::Elements::elements))]
    pub fn all() -> &'static [Element]
        ensures { result.now ≡ elements }
    {
        &[
            Element::Int8,
            Element::Int16,
            Element::Int32,
            Element::Int64,
            Element::Uint8,
            Element::Uint16,
            Element::Uint32,
            Element::Uint64,
            Element::Float,
            Element::Double,
            Element::FloatComplex,
            Element::DoubleComplex,
        ]
    }

    /// The word of a types file.
    pub fn spelling(self) -> &'static [u8]
        ensures { result.now ≡ spelling self }
    {
        match self {
            Element::Int8 => b"int8",
            Element::Int16 => b"int16",
            Element::Int32 => b"int32",
            Element::Int64 => b"int64",
            Element::Uint8 => b"uint8",
            Element::Uint16 => b"uint16",
            Element::Uint32 => b"uint32",
            Element::Uint64 => b"uint64",
            Element::Float => b"float",
            Element::Double => b"double",
            Element::FloatComplex => b"float_complex",
            Element::DoubleComplex => b"double_complex",
        }
    }

    /// The type in C, which needs no more than `stdint.h`.
    pub fn c_name(self) -> &'static [u8]
        ensures { result.now ≡ c_name self }
    {
        match self {
            Element::Int8 => b"int8_t",
            Element::Int16 => b"int16_t",
            Element::Int32 => b"int32_t",
            Element::Int64 => b"int64_t",
            Element::Uint8 => b"uint8_t",
            Element::Uint16 => b"uint16_t",
            Element::Uint32 => b"uint32_t",
            Element::Uint64 => b"uint64_t",
            Element::Float => b"float",
            Element::Double => b"double",
            Element::FloatComplex => b"float _Complex",
            Element::DoubleComplex => b"double _Complex",
        }
    }

    /// The type in calls of MPI.
    pub fn mpi_name(self) -> &'static [u8]
        ensures { result.now ≡ mpi_name self }
    {
        match self {
            Element::Int8 => b"MPI_INT8_T",
            Element::Int16 => b"MPI_INT16_T",
            Element::Int32 => b"MPI_INT32_T",
            Element::Int64 => b"MPI_INT64_T",
            Element::Uint8 => b"MPI_UINT8_T",
            Element::Uint16 => b"MPI_UINT16_T",
            Element::Uint32 => b"MPI_UINT32_T",
            Element::Uint64 => b"MPI_UINT64_T",
            Element::Float => b"MPI_FLOAT",
            Element::Double => b"MPI_DOUBLE",
            Element::FloatComplex => b"MPI_C_FLOAT_COMPLEX",
            Element::DoubleComplex => b"MPI_C_DOUBLE_COMPLEX",
        }
    }

    /// The bytes of one element.
    pub fn size(self) -> u32
        ensures is { result ≡ size self }
        ensures some { 1 ≤ result }
        ensures most { result ≤ 16 }
    {
        match self {
            Element::Int8 | Element::Uint8 => 1,
            Element::Int16 | Element::Uint16 => 2,
            Element::Int32 | Element::Uint32 | Element::Float => 4,
            Element::Int64 | Element::Uint64 | Element::Double | Element::FloatComplex => 8,
            Element::DoubleComplex => 16,
        }
    }

    /// Whether elements are complex numbers, of which none is greater than another.
    pub fn is_complex(self) -> bool
        ensures { result ≡ is_complex self }
    {
        match self {
            Element::FloatComplex | Element::DoubleComplex => true,
            Element::Int8
            | Element::Int16
            | Element::Int32
            | Element::Int64
            | Element::Uint8
            | Element::Uint16
            | Element::Uint32
            | Element::Uint64
            | Element::Float
            | Element::Double => false,
        }
    }

    /// The type that a word names.
    #[tactic(auto, unfolding(crate::specs::Elements::element_named))]
    pub fn named(word: &[u8]) -> Option<Element>
        ensures { result ≡ element_named word.now }
    {
        first_named(Element::all(), word)
    }
}

fn first_named(elements: &[Element], word: &[u8]) -> Option<Element>
    ensures { result ≡ find (λ element. pointwise nat_eq word.now (spelling element)) elements.now }
{
    for element in elements {
        if word == element.spelling() {
            return Some(*element);
        }
    }
    None
}

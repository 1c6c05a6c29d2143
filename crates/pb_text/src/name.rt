ghost use Rattle.std.specs.Prelude.{◌≡◌, ◌<◌, ◌⊎◌, ◌↔◌, length, IfSome, IsNone};

use std::marker::Model;

/// A name of 1 to 64 bytes, held in place.
#[derive(Clone, Copy, Debug, PartialEq, Eq, Hash)]
pub struct Name {
    bytes: [u8; 64],
    len: u8,
}

impl Model for Name {
    ghost use Rattle.std.specs.Prelude.{List, ℕ, take, length};
    ghost use Rattle.pb_text.specs.Padded.{IsPadded, padded};

    ghost Value = { List ℕ };

    ghost view = { λ n. take n.len n.bytes };

    ghost invariant = { λ n. IsPadded n.len n.bytes };

    ghost inverse = { λ v. record { bytes = padded v; len = length v } };

    ghost inverse_ok = { λ n h i. record { bytes = h.zeros i; len = h.whole i } };
}

impl Name {
    /// The name with these bytes. None exactly where there are 0 or more than 64 of them. Takes no memory.
    pub fn of(bytes: &[u8]) -> Option<Name>
        ensures some { IfSome result (λ name. name ≡ bytes.now) }
        ensures none { IsNone result ↔ ((length bytes.now ≡ 0) ⊎ (64 < length bytes.now)) }
    {
        if bytes.is_empty() || bytes.len() > 64 {
            return None;
        }
        let mut held = [0; 64];
        held[..bytes.len()].copy_from_slice(bytes);
        Some(Name {
            bytes: held,
            len: bytes.len() as u8,
        })
    }

    /// The bytes.
    pub fn bytes(&self) -> &[u8]
        ensures value { result.now ≡ self.now }
        ensures some { 0 < length result.now }
        ensures most { length result.now < 65 }
    {
        &self.bytes[..self.len as usize]
    }
}

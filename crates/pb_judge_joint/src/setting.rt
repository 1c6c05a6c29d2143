ghost use Rattle.std.specs.Prelude.{◌≡◌};
ghost use Rattle.pb_core_language.specs.Collectives.{payload_of, word_count};
ghost use Rattle.pb_judge_joint.specs.Setting.{setting_of, collective_of, known_by};

use pb_core_language::{CoreLabel, Op};
use pb_syntax::Payload;
use pb_text::Joint;

/// A collective, with the numbers of its label and its root.
#[derive(Clone, Copy)]
pub enum Collective {
    Barrier,
    Broadcast { label: u32, root: u32 },
    Reduce { label: u32, op: Op, root: u32 },
    Allreduce { label: u32, op: Op },
}

impl Collective {
    /// What it is known by in a log.
    pub fn known_by(&self) -> Joint
        ensures { result ≡ known_by self.now }
    {
        match self {
            Collective::Barrier => Joint::Barrier,
            Collective::Broadcast { label, .. }
            | Collective::Reduce { label, .. }
            | Collective::Allreduce { label, .. } => Joint::Labelled(*label),
        }
    }
}

/// How many ranks there are, and the payloads of the labels. A label that isn't there has no payload.
#[derive(Clone, Copy)]
pub struct Setting<'a> {
    pub total: u32,
    pub labels: &'a [CoreLabel],
}

impl Setting<'_> {
    /// What a label carries.
    pub fn payload(&self, label: u32) -> Payload
        ensures { result ≡ payload_of self.now.labels.now label }
    {
        let at = label as usize;
        if at < self.labels.len() {
            self.labels[at].payload
        } else {
            Payload::Unit
        }
    }

    /// How many words a label carries.
    pub fn size(&self, label: u32) -> u32
        ensures { result ≡ (setting_of self.now).size label }
    {
        word_count(&self.payload(label))
    }

    /// With how many words a rank enters a collective.
    pub fn weight(&self, joint: &Collective, rank: u32) -> u32
        ensures { result ≡ (setting_of self.now).weight (collective_of joint.now) rank }
    {
        match joint {
            Collective::Barrier => 0,
            Collective::Broadcast { label, root } => {
                if rank == *root { self.size(*label) } else { 0 }
            }
            Collective::Reduce { label, .. } => self.size(*label),
            Collective::Allreduce { label, .. } => self.size(*label),
        }
    }
}

fn word_count(payload: &Payload) -> u32
    ensures { result ≡ word_count payload.now }
{
    match payload {
        Payload::Unit => 0,
        Payload::Int32(n) => *n,
        Payload::Uint32(n) => *n,
    }
}

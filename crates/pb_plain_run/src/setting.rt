ghost use Rattle.std.specs.Prelude.{◌≡◌};
ghost use Rattle.pb_core_language.specs.Collectives.{payload_of, word_count};
ghost use Rattle.pb_plain.specs.View.{collective_of};
ghost use Rattle.pb_plain_run.specs.Setting.{setting_of};

use pb_core_language::CoreLabel;
use pb_plain::Collective;
use pb_syntax::Payload;

/// What a run knows besides the protocol: how many ranks there are, and the payloads of the labels by their numbers. A
/// label that isn't there has no payload.
#[derive(Clone, Copy)]
pub struct Setting<'a> {
    pub total: u64,
    pub labels: &'a [CoreLabel],
}

impl Setting<'_> {
    /// What a label carries.
    pub fn payload(&self, label: u32) -> Payload
        ensures { result ≡ payload_of self.now.labels.now label }
    {
        let at = label as usize;
        if at < self.labels.len() {
            self.labels[at].payload
        } else {
            Payload::Unit
        }
    }

    /// How many words a label carries.
    pub fn size(&self, label: u32) -> u32
        ensures { result ≡ (setting_of self.now).size label }
    {
        word_count(&self.payload(label))
    }

    /// With how many words a rank enters a collective.
    pub fn weight(&self, joint: &Collective, rank: u64) -> u32
        ensures { result ≡ (setting_of self.now).weight (collective_of joint.now) rank }
    {
        match joint {
            Collective::Barrier => 0,
            Collective::Broadcast { label, root } => {
                if rank == *root { self.size(*label) } else { 0 }
            }
            Collective::Reduce { label, .. } => self.size(*label),
            Collective::Allreduce { label, .. } => self.size(*label),
        }
    }
}

fn word_count(payload: &Payload) -> u32
    ensures { result ≡ word_count payload.now }
{
    match payload {
        Payload::Unit => 0,
        Payload::Int32(n) => *n,
        Payload::Uint32(n) => *n,
    }
}

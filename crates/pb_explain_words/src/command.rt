/// A command.
#[derive(Clone, Copy)]
pub enum Verb {
    Check,
    Project,
    Gen,
    Run,
    Sim,
    Replay,
    Expand,
    Strips,
    Cost,
    Judge,
    Demo,
}

impl Verb {
    /// All commands.
    pub fn all() -> &'static [Verb] {
        &[
            Verb::Check,
            Verb::Project,
            Verb::Gen,
            Verb::Run,
            Verb::Sim,
            Verb::Replay,
            Verb::Expand,
            Verb::Strips,
            Verb::Cost,
            Verb::Judge,
            Verb::Demo,
        ]
    }

    /// How it is written.
    pub fn name(self) -> &'static str {
        match self {
            Verb::Check => "check",
            Verb::Project => "project",
            Verb::Gen => "gen",
            Verb::Run => "run",
            Verb::Sim => "sim",
            Verb::Replay => "replay",
            Verb::Expand => "expand",
            Verb::Strips => "strips",
            Verb::Cost => "cost",
            Verb::Judge => "judge",
            Verb::Demo => "demo",
        }
    }

    /// Its form.
    pub fn form(self) -> &'static str {
        match self {
            Verb::Check => "pabble check FILE",
            Verb::Project => "pabble project FILE",
            Verb::Gen => "pabble gen FILE [KERNELS]",
            Verb::Run => "pabble run FILE --n A [--seed B] [--turns C] [--mode M] [--schedule]",
            Verb::Sim => "pabble sim TEXT --n A [--seed B] [--turns C] [--mode M] [--schedule]",
            Verb::Replay => "pabble replay TEXT SCHEDULE --n A",
            Verb::Expand => "pabble expand FILE",
            Verb::Strips => "pabble strips FILE",
            Verb::Cost => "pabble cost FILE",
            Verb::Judge => "pabble judge FILE LOG --n A",
            Verb::Demo => "pabble demo K",
        }
    }

    /// What it does.
    pub fn purpose(self) -> &'static str {
        match self {
            Verb::Check => "says whether the protocol in FILE is accepted",
            Verb::Project => "writes the one program that all its ranks run",
            Verb::Gen => "writes its MPI program in C, with the kernels of KERNELS",
            Verb::Run => "simulates the protocol at N = A",
            Verb::Sim => "simulates a C text that `gen` wrote",
            Verb::Replay => "simulates it by a schedule that `--schedule` wrote",
            Verb::Expand => "writes the protocol file that a file with subprotocols stands for",
            Verb::Strips => "writes the protocol file that a file with strips stands for",
            Verb::Cost => "counts the least and the most that the protocol sends, for every N",
            Verb::Judge => "says whether a log kept the protocol at N = A, and else where not",
            Verb::Demo => "makes, compiles and simulates a protocol of K statements",
        }
    }

    /// What its words are, from the first to the last that there must be.
    pub fn files(self) -> &'static [&'static str] {
        match self {
            Verb::Check
            | Verb::Project
            | Verb::Gen
            | Verb::Run
            | Verb::Expand
            | Verb::Strips
            | Verb::Cost => &["FILE"],
            Verb::Sim => &["TEXT"],
            Verb::Replay => &["TEXT", "SCHEDULE"],
            Verb::Judge => &["FILE", "LOG"],
            Verb::Demo => &["K"],
        }
    }

    /// How many words it takes at most.
    pub fn most(self) -> usize {
        match self {
            Verb::Gen | Verb::Replay | Verb::Judge => 2,
            Verb::Check
            | Verb::Project
            | Verb::Run
            | Verb::Sim
            | Verb::Expand
            | Verb::Strips
            | Verb::Cost
            | Verb::Demo => 1,
        }
    }

    /// The command of this name.
    pub fn of(word: &str) -> Option<Verb> {
        for verb in Verb::all() {
            if verb.name() == word {
                return Some(*verb);
            }
        }
        None
    }
}

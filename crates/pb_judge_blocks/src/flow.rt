ghost use Rattle.std.specs.Prelude.{◌≡◌};
ghost use Rattle.pb_judge_blocks.specs.Flows.{differing, flow_of, is_back, is_passed};

use pb_judge_steps::Difference;
use pb_judge_walks::Flow;

/// Whether what stands behind it comes next.
pub fn is_passed(flow: Flow) -> bool
    ensures { result ≡ is_passed flow }
{
    match flow {
        Flow::Passed => true,
        Flow::Back(_) | Flow::Differs { .. } | Flow::Endless => false,
    }
}

/// Whether it goes back to the loop with this id.
pub fn is_back(flow: Flow, id: u32) -> bool
    ensures { result ≡ is_back flow id }
{
    match flow {
        Flow::Back(other) => other == id,
        Flow::Passed | Flow::Differs { .. } | Flow::Endless => false,
    }
}

/// How a step ends that was met, or not.
pub fn flow_of(met: Option<Difference>) -> Flow
    ensures { result ≡ flow_of met }
{
    match met {
        None => Flow::Passed,
        Some(difference) => differing(difference),
    }
}

/// How it ends where an entry says something else.
pub fn differing(difference: Difference) -> Flow
    ensures { result ≡ differing difference }
{
    Flow::Differs {
        rank: difference.rank,
        line: difference.line,
    }
}

use pb_core_language::CoreRole;
use pb_judge_joint::Setting;

/// A protocol's roles, ranks and labels at one N.
#[derive(Clone, Copy)]
pub struct Site<'a> {
    pub roles: &'a [CoreRole],
    pub n: i64,
    pub setting: Setting<'a>,
}

ghost use Rattle.pb_affine.specs.Values.{IsNear};

/// Who a rank is.
#[derive(Clone, Copy)]
pub struct Me {
    /// The number N.
    pub n: i64,
    /// The role's number.
    pub role: u32,
    pub index: i64,
    /// How many ranks the world has.
    pub total: u32,
    ghost n_near: { IsNear n },
    ghost index_near: { IsNear index },
}

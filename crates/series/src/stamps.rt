// A stamp: eight digits, T, six digits, Z.
ghost use Rattle.std.specs.Prelude.{◌≡◌, true};
ghost use Rattle.series.specs.Octets.{is_stamp};

#[derive(Clone, Copy)]
pub struct Stamp {
    pub(crate) octets: [u8; 16],
    ghost valid: { is_stamp octets ≡ true },
}

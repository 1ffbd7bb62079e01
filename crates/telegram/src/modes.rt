ghost use Rattle.std.specs.Prelude.{◌≡◌};
ghost use Rattle.telegram.specs.Modes.{mode_code, mode_name};

/// The ten modes of the unit, each with its letters and its code.
#[derive(Clone, Copy, Debug, PartialEq, Eq)]
pub enum Mode {
    /// SB, code 0.
    Standby = 0,
    /// SR, code 1.
    StaffResponsible = 1,
    /// FS, code 2.
    FullSupervision = 2,
    /// OS, code 3.
    OnSight = 3,
    /// LS, code 4.
    LimitedSupervision = 4,
    /// SH, code 5.
    Shunting = 5,
    /// UN, code 6.
    Unfitted = 6,
    /// TR, code 7.
    Trip = 7,
    /// PT, code 8.
    PostTrip = 8,
    /// SF, code 9.
    SystemFailure = 9,
}

impl Mode {
    /// The code of the mode, 0 to 9.
    pub fn code(self) -> u8
        ensures { result ≡ mode_code self }
    {
        self as u8
    }

    /// The two letters of the mode, in capitals.
    pub fn name(self) -> &'static str
        ensures { result.now ≡ mode_name self }
    {
        match self {
            Mode::Standby => "SB",
            Mode::StaffResponsible => "SR",
            Mode::FullSupervision => "FS",
            Mode::OnSight => "OS",
            Mode::LimitedSupervision => "LS",
            Mode::Shunting => "SH",
            Mode::Unfitted => "UN",
            Mode::Trip => "TR",
            Mode::PostTrip => "PT",
            Mode::SystemFailure => "SF",
        }
    }
}

// The modes that an authority may name, each at the value of its two bits.
pub(crate) const LISTED_MODES: [Mode; 3] = [
    Mode::FullSupervision,
    Mode::OnSight,
    Mode::LimitedSupervision,
];

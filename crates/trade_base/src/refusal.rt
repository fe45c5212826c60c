//! The refusals of the machine's calls, and a boot's failure for lack of host memory.
ghost use Rattle.std.specs.Prelude.{◌≡◌};
ghost use Rattle.trade_base.specs.Refusal.{refusal_name};

/// The reason why a component's call is refused. A refused call changes nothing.
#[derive(Clone, Copy, Debug, PartialEq, Eq)]
pub enum Refusal {
    /// The line is not a call.
    BadLine,
    /// No script or server of the start list has this path: no entry has it, or the entry is an init.
    UnknownComponent,
    /// The component is a server.
    NotAScript,
    /// The component has exited.
    Gone,
    /// The session arguments do not follow their grammar.
    BadArgs,
    /// The size is 0, too long, or exceeds 64 bits after rounding.
    InvalidSize,
    /// The selector is not in use, or names a capability of another kind.
    InvalidCap,
    /// The account does not cover the requested RAM, or the reserve does not cover the requested transfer of RAM.
    OutOfRam,
    /// The account does not cover the requested capabilities, or the reserve does not cover the requested transfer of
    /// capabilities.
    OutOfCaps,
    /// The range overlaps a region, is unaligned or outside the window, or no gap fits.
    RegionConflict,
    /// The maximum number of user regions is attached.
    TooManyRegions,
    /// No region, block or payload of the caller is at the address.
    PageFault,
    /// The heap has 64 chunks and needs another one.
    TooManyChunks,
    /// No route leads from the client to a provider of the service.
    ServiceDenied,
    /// The donation has too little RAM.
    InsufficientRamQuota,
    /// The donation has too few capabilities.
    InsufficientCapQuota,
    /// The selector is not in use, or does not name a session.
    InvalidSession,
}

impl Refusal {
    ghost use Rattle.std.specs.Prelude.{◌≡◌};
    ghost use Rattle.trade_base.specs.Refusal.{refusal_name};

    /// Returns the refusal's name as a reply shows it, for example `Out_of_ram`.
    pub fn name(self) -> &'static str
        ensures { result.now ≡ refusal_name self }
    {
        match self {
            Refusal::BadLine => "Bad_line",
            Refusal::UnknownComponent => "Unknown_component",
            Refusal::NotAScript => "Not_a_script",
            Refusal::Gone => "Gone",
            Refusal::BadArgs => "Bad_args",
            Refusal::InvalidSize => "Invalid_size",
            Refusal::InvalidCap => "Invalid_cap",
            Refusal::OutOfRam => "Out_of_ram",
            Refusal::OutOfCaps => "Out_of_caps",
            Refusal::RegionConflict => "Region_conflict",
            Refusal::TooManyRegions => "Too_many_regions",
            Refusal::PageFault => "Page_fault",
            Refusal::TooManyChunks => "Too_many_chunks",
            Refusal::ServiceDenied => "Service_denied",
            Refusal::InsufficientRamQuota => "Insufficient_ram_quota",
            Refusal::InsufficientCapQuota => "Insufficient_cap_quota",
            Refusal::InvalidSession => "Invalid_session",
        }
    }
}

/// The error of a boot for which the host has too little memory.
#[derive(Clone, Copy, Debug, PartialEq, Eq)]
pub struct NoMemory;

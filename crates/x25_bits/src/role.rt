ghost use Rattle.std.specs.Prelude.{◌≡◌};

/// An end of the link: the terminal (DTE) or the network's side (DCE).
#[derive(Clone, Copy, Debug, PartialEq, Eq)]
pub enum Role {
    Dte,
    Dce,
}

impl Role {
    ghost use Rattle.x25_bits.specs.Role.{other};

    /// The other end.
    pub fn other(self) -> Role
        ensures { result ≡ other self }
    {
        match self {
            Role::Dte => Role::Dce,
            Role::Dce => Role::Dte,
        }
    }
}

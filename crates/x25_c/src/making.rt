//! A station as it is made for C.
ghost use Rattle.std.specs.Prelude.{◌≡◌, IfOk, IsSomeAnd, None};
ghost use Rattle.x25_bits.specs.declared.role.Role.{Role};
ghost use Rattle.x25_station.specs.declared.config.Cfg.{Cfg};
ghost use Rattle.x25_station.specs.Config.{config_refusal};
ghost use Rattle.x25_station.specs.code.FitsStation.{RefusesWith};
ghost use Rattle.x25_c.specs.Making.{making_refusal, role_of};
ghost use Rattle.x25_c.specs.code.Happens.{IsNew};

use crate::held::Held;
use std::alloc::Global;
use x25_station::{Cfg, Role, Station, StationError, Step};

pub(crate) fn role_of_number(end: u8) -> Option<Role>
    ensures { result ≡ role_of end }
{
    match end {
        0 => Some(Role::Dte),
        1 => Some(Role::Dce),
        _ => None,
    }
}

// A station is large: in a box it is let go of by one call.
fn boxed(alloc: Global, held: Held) -> Result<Box<Held>, StationError>
    ensures made { (at : Role) (cfg : Cfg) → IsNew at cfg held → IfOk result (λ b. IsNew at cfg b.value) }
    ensures refused { RefusesWith result None }
{
    match Box::new(alloc, held) {
        Ok(boxed) => Ok(boxed),
        Err(_) => Err(StationError::NoMemory),
    }
}

fn make_at(alloc: Global, end: Role, cfg: Cfg) -> Result<Box<Held>, StationError>
    ensures made { IfOk result (λ b. IsNew end cfg b.value) }
    ensures refused { RefusesWith result (config_refusal cfg) }
{
    let station = match Station::new(alloc, end, cfg) {
        Ok(station) => station,
        Err(error) => return Err(error),
    };
    let Ok(step) = Step::new(alloc) else {
        drop(station);
        return Err(StationError::NoMemory);
    };
    boxed(alloc, Held::new(alloc, end, station, step))
}

/// A station in a box. 14 where a setting is out of its range, and else 70 alone.
pub(crate) fn make(alloc: Global, end: u8, cfg: Cfg) -> Result<Box<Held>, StationError>
    ensures made { IfOk result (λ b. IsSomeAnd (role_of end) (λ role. IsNew role cfg b.value)) }
    ensures refused { RefusesWith result (making_refusal end cfg) }
{
    match role_of_number(end) {
        Some(role) => make_at(alloc, role, cfg),
        None => Err(StationError::BadConfig),
    }
}

ghost use Rattle.std.specs.Prelude.{◌≡◌, ◌⊎◌, ◌≤◌, ◌+◌, ◌∷◌, ◌++◌, [], length, max, vec_len, vec_capacity, OnOk, OnErr};
ghost use Rattle.std.specs.Prelude.{IfErr, IfSome};
ghost use Rattle.std.specs.Prelude.{IfNone, Some, None, option_copied, nat_lt};
ghost use Rattle.std.specs.List.{list_all};
ghost use Rattle.x25_packet.specs.Digits.{is_digit};
ghost use Rattle.x25_routes.specs.declared.error.RouteError.TheVariants as error;
ghost use Rattle.x25_routes.specs.Routes.{route_of, found, onward, refusal, without, is_prefix, are_lines};

use crate::error::RouteError;
use crate::found::Found;
use crate::route::Route;
use std::alloc::Global;

/// The most digits of an address. ITU-T X.25 (10/96), section 5.2.1.
const MOST_DIGITS: usize = 15;

/// Routes by prefix, over so many lines.
#[derive(Drop)]
pub struct Routes {
    pub routes: Vec<Route>,
    lines: usize,
}

fn are_digits(digits: &[u8]) -> bool
    ensures { result ≡ list_all is_digit digits.now }
{
    digits.iter().all(|digit| *digit <= 9)
}

fn are_below(count: usize, lines: &[u8]) -> bool
    ensures { result ≡ list_all (λ line. nat_lt line count) lines.now }
{
    lines.iter().all(|line| usize::from(*line) < count)
}

fn is_prefix(digits: &[u8]) -> bool
    ensures { result ≡ is_prefix digits.now }
{
    digits.len() <= MOST_DIGITS && are_digits(digits)
}

fn are_lines(count: usize, lines: &[u8]) -> bool
    ensures { result ≡ are_lines count lines.now }
{
    !lines.is_empty() && are_below(count, lines)
}

impl Routes {
    ghost use Rattle.x25_routes.specs.code.Made.{made};

    /// No route, over lines of the numbers from 0 up to but not including `lines`. It takes no memory.
    pub fn new(alloc: Global, lines: usize) -> Routes
        ensures none { made result ≡ [] }
        ensures memory { vec_capacity result.routes ≡ 0 }
        ensures lines { result.lines ≡ lines }
    {
        Routes {
            routes: Vec::new(alloc),
            lines,
        }
    }

    // The route of just this prefix.
    fn of(&self, prefix: &[u8]) -> Option<&Route>
        ensures route { option_copied result ≡ route_of (made self.now) prefix.now }
        ensures same { IfSome result (λ r. r.now.prefix ≡ prefix.now) }
    {
        for route in &self.routes {
            if route.is_of(prefix) {
                return Some(route);
            }
        }
        None
    }

    fn refusal(&self, prefix: &[u8], becomes: &[u8], lines: &[u8]) -> Option<RouteError>
        ensures { result ≡ refusal self.now.lines (made self.now)
            (record { prefix = prefix.now; becomes = becomes.now; lines = lines.now }) }
    {
        if !(is_prefix(prefix) && is_prefix(becomes)) {
            return Some(RouteError::BadPrefix);
        }
        if !are_lines(self.lines, lines) {
            return Some(RouteError::NoSuchLine);
        }
        if self.of(prefix).is_some() {
            return Some(RouteError::Stands);
        }
        None
    }

    /// Makes a route for the addresses that begin with a prefix of digits, each 0 to 9: what the prefix becomes
    /// (itself, where it stays), and the lines that are tried in turn.
    ///
    /// 81 where the prefix, or what it becomes, isn't 0 to 15 digits; else 80 where there is no line, or one that there
    /// isn't; else 83 where there is a route of this prefix; else 70 alone. All is as before then.
    pub fn route(&mut self, prefix: &[u8], becomes: &[u8], lines: &[u8]) -> Result<(), RouteError>
        ensures made { OnOk result (made self.new
            ≡ made self.old ++ record { prefix = prefix.now; becomes = becomes.now; lines = lines.now } ∷ []) }
        ensures allowed { OnOk result (refusal self.old.lines (made self.old)
            (record { prefix = prefix.now; becomes = becomes.now; lines = lines.now }) ≡ None) }
        ensures refused { IfErr result (λ e. (refusal self.old.lines (made self.old)
            (record { prefix = prefix.now; becomes = becomes.now; lines = lines.now }) ≡ Some e)
            ⊎ ((refusal self.old.lines (made self.old)
            (record { prefix = prefix.now; becomes = becomes.now; lines = lines.now }) ≡ None)
            × (e ≡ error.NoMemory))) }
        ensures unchanged { OnErr result (made self.new ≡ made self.old) }
        ensures memory { vec_capacity self.new.routes ≤ max (vec_capacity self.old.routes)
            (vec_len self.old.routes + 1) }
        ensures lines { self.new.lines ≡ self.old.lines }
    {
        if let Some(error) = self.refusal(prefix, becomes, lines) {
            return Err(error);
        }
        let route = Route::new(*self.routes.allocator(), prefix, becomes, lines)?;
        self.routes.reserve_exact(1)?;
        self.routes.push_reserved(route);
        Ok(())
    }

    /// Removes the route of just this prefix. Err: 82 alone, where there is none.
    pub fn unroute(&mut self, prefix: &[u8]) -> Result<(), RouteError>
        ensures left { made self.new ≡ without (made self.old) prefix.now }
        ensures refused { IfErr result (λ e. (route_of (made self.old) prefix.now ≡ None) × (e ≡ error.NoSuchRoute)) }
        ensures removed { OnOk result (vec_len self.new.routes + 1 ≡ vec_len self.old.routes) }
        ensures memory { vec_capacity self.new.routes ≡ vec_capacity self.old.routes }
        ensures lines { self.new.lines ≡ self.old.lines }
    {
        for place in 0..self.routes.len() {
            if self.routes[place].is_of(prefix) {
                self.routes.remove(place);
                return Ok(());
            }
        }
        Err(RouteError::NoSuchRoute)
    }

    // The route of the longest prefix of an address for which there is one.
    fn longest(&self, called: &[u8]) -> Option<&Route>
        ensures route { option_copied result ≡ found (made self.now) called.now }
        ensures short { IfSome result (λ r. length r.now.prefix ≤ length called.now) }
    {
        for missing in 0..called.len() {
            if let Some(route) = self.of(&called[..called.len() - missing]) {
                return Some(route);
            }
        }
        self.of(&[])
    }

    /// The lines to try in turn for a called address, and the address as it goes on: by the route of the longest prefix
    /// of the address for which there is one.
    pub fn find<'a>(&'a self, called: &'a [u8]) -> Option<Found<'a>>
        ensures found { IfSome result (λ f. onward (made self.now) called.now
            ≡ Some (record { lines = f.lines.now; address = f.becomes.now ++ f.rest.now })) }
        ensures none { IfNone result (onward (made self.now) called.now ≡ None) }
    {
        let route = self.longest(called)?;
        Some(Found {
            lines: route.lines(),
            becomes: route.becomes(),
            rest: &called[route.prefix().len()..],
        })
    }
}

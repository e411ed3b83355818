// Looking for a station.
ghost use Rattle.std.specs.Prelude.{◌≡◌, ℕ, Bool, ◌-◌, ◌<◌, ◌≤◌, IfSome};
ghost use Rattle.laws.specs.Fold.{first_from};
ghost use Rattle.network.specs.Stations.{number_or};

use kinds::Station;

// The lowest station from one on, and below n, that passes a test, if there is one.
pub fn lowest_station<F: Fn(Station) -> bool>(from: Station, n: usize, test: F) -> Option<Station>
    requires { (n ≤ 1024) × ((v : _) → v.0 < n → F.pre test v) }
    ensures lowest { (passes : ℕ → Bool) → ((v : _) (b : Bool) → v.0 < n → F.post test v b → b ≡ passes v.0) → number_or n result ≡ first_from passes (λ v. v) n from.0 (n - from.0) }
    ensures station { IfSome result (λ v. v.0 < n) }
{
    for v in from.0 as usize..n {
        let station = Station(v as u16);
        if test(station) {
            return Some(station);
        }
    }
    None
}

// What is printed of the tallies, where that is asked for.
ghost use Rattle.std.specs.Prelude.{◌<◌};
ghost use Rattle.units.specs.Units.{tenants};
ghost use Rattle.lines.specs.Laying.{longest_tally, Room, Laid};
ghost use Rattle.replay.specs.Tallying.{longest_tallies, tally_line_of, reading_of, tally_lines};

use lines::Output;
use lines::line::tally_line;
use session::Session;
use units::TENANTS;

// The line of one tenant.
fn line_of(s: &Session, tenant: u32, out: &mut Output, at: usize) -> usize
    requires tenant_lt_tenants { tenant < tenants }
    requires room { Room out.old at longest_tally }
    ensures { Laid out.old at (tally_line_of tenant (reading_of s.now tenant)) longest_tally out.new result }
{
    let Ok(t) = s.tally_of(tenant) else {
        return at;
    };
    tally_line(out, at, tenant, t.turns, t.bought, t.sold)
}

// A line for each tenant, from a place of the output on.
pub fn tally_lines(s: &Session, out: &mut Output, at: usize) -> usize
    requires { Room out.old at longest_tallies }
    ensures { Laid out.old at (tally_lines s.now) longest_tallies out.new result }
{
    let mut end = at;
    for t in 0..TENANTS {
        end = line_of(s, t as u32, out, end);
    }
    end
}

// From the capabilities over the ports to the layout: what follows the replies to QUERY_DEV_CAP and QUERY_PORT, which are noted behind the head already.
#![tactic(auto)]

ghost use Rattle.std.specs.Prelude.{◌≡◌};
ghost use Rattle.fields.specs.Outcome.{pick};
ghost use Rattle.reply.specs.Capability.{capability, refused_by};
ghost use Rattle.reply.specs.Replies.{query_port};
ghost use Rattle.layout.specs.Layout.{laid};
ghost use Rattle.session.specs.Core.{full, plan_in};
ghost use Rattle.behind.specs.Behind.{behind_in};
ghost use Rattle.opening_plan.specs.Plan as p;
ghost use Rattle.ports.specs.Replied.{CapPlan, PortPlan};

use fields::Short;
use hcr::Op;
use layout::{Layout, Misfit};
use pci::Refusal;
use reply::{CapRefusal, DevCap, PortInfo};
use session::{Boot, Core, Plan, Top};

// The layout, accepted or refused.
fn lay_out(s: Core, y: Result<Layout, Misfit>, top: Top, m: &[u8]) -> Plan
    ensures { plan_in result (behind_in m.now) ≡ p.layout_plan (full s (behind_in m.now)) (laid y) top }
{
    match y {
        Ok(layout) => opening_values::imm(s, Boot::IcmSize, Op::SET_ICM_SIZE, layout.total, top),
        Err(misfit) => match misfit {
            Misfit::Entry(i) => opening_values::fail(s, Refusal::Entry(i), top, m),
            Misfit::Total(n) => opening_values::fail(s, Refusal::Total(n), top, m),
        },
    }
}

// How many ports are asked about: none at revision 2.
fn ports(rev3: bool, ports: u8) -> u8
    ensures { result ≡ pick rev3 ports 0 }
{
    if rev3 { ports } else { 0 }
}

// The port after port n, or the layout.
fn next_port(s: Core, n: u8, top: Top, m: &[u8]) -> Plan
    ensures { plan_in result (behind_in m.now) ≡ p.port_plan (full s (behind_in m.now)) n top }
{
    let cap = behind::cap_at(m);
    if n < ports(s.rev3, cap.ports) {
        return opening_values::ask(s, Boot::Port(n + 1), Op::QUERY_PORT, (n + 1) as u32, top, m);
    }
    lay_out(s, layout::profile(cap), top, m)
}

// A reply to QUERY_DEV_CAP that is refused.
fn cap_refused(s: Core, why: CapRefusal, top: Top, m: &[u8]) -> Plan
    ensures { CapPlan result s (refused_by why) top (behind_in m.now) }
{
    match why {
        CapRefusal::Short => opening_values::fail(s, Refusal::Short, top, m),
        CapRefusal::MinPage(n) => opening_values::fail(s, Refusal::MinPage(n), top, m),
        CapRefusal::Ports(n) => opening_values::fail(s, Refusal::Ports(n), top, m),
        CapRefusal::Uar(n) => opening_values::fail(s, Refusal::Uar(n), top, m),
        CapRefusal::UarArea(n) => opening_values::fail(s, Refusal::UarArea(n), top, m),
    }
}

// The reply to QUERY_DEV_CAP, and one to QUERY_PORT.
pub fn cap_replied(s: Core, y: Result<DevCap, CapRefusal>, top: Top, m: &[u8]) -> Plan
    ensures { CapPlan result s (capability y) top (behind_in m.now) }
{
    match y {
        Ok(cap) => next_port(opening_values::with_cap(s, cap), 0, top, m),
        Err(why) => cap_refused(s, why, top, m),
    }
}

pub fn port_replied(s: Core, n: u8, y: Result<PortInfo, Short>, top: Top, m: &[u8]) -> Plan
    ensures { PortPlan result s n (query_port y) top (behind_in m.now) }
{
    match y {
        Ok(_) => next_port(s, n, top, m),
        Err(Short) => opening_values::fail(s, Refusal::Short, top, m),
    }
}

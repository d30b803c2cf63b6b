//! The nets of units where the net of one unit is kept.
ghost use Rattle.std.specs.Prelude.{◌≡◌, true, Some, IfOk};
ghost use Rattle.fb_library.specs.{Texts.{sources_of}, View.{tree_at}};
ghost use Rattle.fb_flatten.specs.{Net.{plain_net}, Nets.{has_net_in, net_at}};
ghost use Rattle.network_tests.specs.OneHint.{hint_of};

use crate::nets::{NETS, VALUES, chain};
use crate::told::{net_told, unit_net_told};
use crate::units::{Question, compare};
use fb_flatten::{Hints, Net, has_net, net, net_with};
use fb_library::Library;
use fb_tree::text::{Name, same_name};
use std::alloc::{AllocError, Global};
use std::test::Fail;

/// The net of one unit.
#[derive(Drop)]
pub struct Kept {
    pub unit: Name,
    pub net: Net,
}

impl Hints for Kept {
    ghost hints = { λ it name. hint_of it.unit (plain_net it.net) name };

    fn net_of(&self, name: &Name) -> Option<&Net> {
        if same_name(&self.unit, name) {
            Some(&self.net)
        } else {
            None
        }
    }
}

/// The net of a unit that has one, to be kept.
fn keep(alloc: Global, library: &Library, unit: Name) -> Result<Kept, AllocError>
    requires { has_net_in (tree_at (sources_of library.now) unit) ≡ true }
    ensures { IfOk result (λ kept. net_at (sources_of library.now) kept.unit ≡ Some (plain_net kept.net)) }
{
    let net = net(alloc, library, unit)?;
    Ok(Kept { unit, net })
}

/// The same for a unit of this name.
pub fn kept_of(alloc: Global, library: &Library, unit: &str) -> Result<Kept, Fail>
    ensures { IfOk result (λ kept. net_at (sources_of library.now) kept.unit ≡ Some (plain_net kept.net)) }
{
    let name = Name::read(unit)?;
    if !has_net(library, &name) {
        return Err(Fail::from("no net to keep"));
    }
    Ok(keep(alloc, library, name)?)
}

/// The net of a unit that has one, beside the kept net.
pub fn net_beside(
    alloc: Global,
    library: &Library,
    unit: Name,
    kept: &Kept,
) -> Result<Net, AllocError>
    requires net { has_net_in (tree_at (sources_of library.now) unit) ≡ true }
    requires kept { net_at (sources_of library.now) kept.now.unit ≡ Some (plain_net kept.now.net) }
{
    net_with(alloc, library, unit, kept)
}

fn net_beside_told(
    alloc: Global,
    library: &Library,
    unit: &str,
    kept: &Kept,
) -> Result<String, Fail>
    requires { net_at (sources_of library.now) kept.now.unit ≡ Some (plain_net kept.now.net) }
{
    let name = Name::read(unit)?;
    if !has_net(library, &name) {
        return Ok(String::from_str(alloc, "no net")?);
    }
    net_told(alloc, &net_beside(alloc, library, name, kept)?)
}

/// What a net is.
fn sort_of(net: &Net) -> &'static str {
    match net {
        Net::Blocked(_) => "blocked",
        Net::Recursive(_) => "recursive",
        Net::TooLarge => "too large",
        Net::Flat(_) => "flat",
    }
}

/// Of a row `UNIT beside OTHER`, what the kept net of the other is, and the net of the unit, which is the same without that.
struct Beside;

impl Question for Beside {
    fn asks(asked: &str) -> bool {
        asked.contains(' ')
    }

    fn answer(alloc: Global, library: &Library, asked: &str) -> Result<String, Fail> {
        let (unit, inner) = asked.split_once(" beside ").ok_or("one unit")?;
        let kept = kept_of(alloc, library, inner)?;
        let net = net_beside_told(alloc, library, unit, &kept)?;
        let own = unit_net_told(alloc, library, unit)?;
        if net.as_str() != own.as_str() {
            return Err(format!(in alloc; "{asked}: {net}, and alone: {own}")?.into());
        }
        Ok(format!(in alloc; "{}: {net}", sort_of(&kept.net))?)
    }
}

const KEPT: &str = r#"
== M is between S and T or D, and D also holds S itself; W also rests on a type that is absent
FUNCTION_BLOCK B EVENT_INPUT I; END_EVENT EVENT_OUTPUT O; END_EVENT END_FUNCTION_BLOCK
SUBAPPLICATION S EVENT_INPUT I; END_EVENT FBS F:B; END_FBS EVENT_CONNECTIONS I TO F.I; END_CONNECTIONS END_SUBAPPLICATION
SUBAPPLICATION M EVENT_INPUT I; END_EVENT SUBAPPS N:S; END_SUBAPPS EVENT_CONNECTIONS I TO N.I; END_CONNECTIONS END_SUBAPPLICATION
SUBAPPLICATION T FBS K:B; END_FBS SUBAPPS X:M; END_SUBAPPS EVENT_CONNECTIONS K.O TO X.I; END_CONNECTIONS END_SUBAPPLICATION
SUBAPPLICATION D FBS K:B; END_FBS SUBAPPS X:M; Y:S; END_SUBAPPS EVENT_CONNECTIONS K.O TO X.I; K.O TO Y.I; END_CONNECTIONS END_SUBAPPLICATION
SUBAPPLICATION W FBS F:NO; END_FBS SUBAPPS X:S; END_SUBAPPS END_SUBAPPLICATION
T beside S => flat: K:B; X.N.F:B; Event K.O TO X.N.F.I
T beside M => flat: K:B; X.N.F:B; Event K.O TO X.N.F.I
D beside S => flat: K:B; X.N.F:B; Y.F:B; Event K.O TO X.N.F.I; Event K.O TO Y.F.I
D beside M => flat: K:B; X.N.F:B; Y.F:B; Event K.O TO X.N.F.I; Event K.O TO Y.F.I
W beside S => flat: blocked NO W
// one that the unit does not rest on
S beside T => flat: F:B; Event I AT F.I
B beside S => flat: no net

== a plug of one L to a socket of another, whose adapter S does not mention
ADAPTER A EVENT_INPUT R; END_EVENT EVENT_OUTPUT Q; END_EVENT END_ADAPTER
FUNCTION_BLOCK P PLUGS X:A; END_PLUGS END_FUNCTION_BLOCK
FUNCTION_BLOCK K SOCKETS Y:A; END_SOCKETS END_FUNCTION_BLOCK
SUBAPPLICATION L PLUGS Z:A; END_PLUGS SOCKETS W:A; END_SOCKETS FBS F:P; G:K; END_FBS ADAPTER_CONNECTIONS F.X TO Z; W TO G.Y; END_CONNECTIONS END_SUBAPPLICATION
SUBAPPLICATION S SUBAPPS C:L; D:L; END_SUBAPPS ADAPTER_CONNECTIONS C.Z TO D.W; END_CONNECTIONS END_SUBAPPLICATION
S beside L => flat: C.F:P; C.G:K; D.F:P; D.G:K; Event C.F.X.Q TO D.G.Y.Q; Event D.G.Y.R TO C.F.X.R

== P and Q hold each other, and R and V are above them; V also rests on a type that is absent
SUBAPPLICATION P SUBAPPS X:Q; END_SUBAPPS END_SUBAPPLICATION
SUBAPPLICATION Q SUBAPPS Y:P; END_SUBAPPS END_SUBAPPLICATION
SUBAPPLICATION R SUBAPPS Z:P; END_SUBAPPS END_SUBAPPLICATION
SUBAPPLICATION V FBS F:NO; END_FBS SUBAPPS Z:P; END_SUBAPPS END_SUBAPPLICATION
R beside P => recursive: recursive P Q
R beside Q => recursive: recursive P Q
P beside Q => recursive: recursive P Q
V beside P => recursive: blocked NO V
"#;

pub const BORDERS: &str = r#"
== an event through two borders to two blocks
FUNCTION_BLOCK T EVENT_INPUT I; END_EVENT EVENT_OUTPUT O; END_EVENT END_FUNCTION_BLOCK
SUBAPPLICATION INNER EVENT_INPUT E; END_EVENT FBS F1:T; F2:T; END_FBS EVENT_CONNECTIONS E TO F1.I; E TO F2.I; END_CONNECTIONS END_SUBAPPLICATION
SUBAPPLICATION MID EVENT_INPUT E; END_EVENT SUBAPPS K:INNER; END_SUBAPPS EVENT_CONNECTIONS E TO K.E; END_CONNECTIONS END_SUBAPPLICATION
SUBAPPLICATION OUTER FBS G:T; END_FBS SUBAPPS N:MID; END_SUBAPPS EVENT_CONNECTIONS G.O TO N.E; END_CONNECTIONS END_SUBAPPLICATION
OUTER beside INNER => flat: G:T; N.K.F1:T; N.K.F2:T; Event G.O TO N.K.F1.I; Event G.O TO N.K.F2.I
OUTER beside MID => flat: G:T; N.K.F1:T; N.K.F2:T; Event G.O TO N.K.F1.I; Event G.O TO N.K.F2.I
MID beside INNER => flat: K.F1:T; K.F2:T; Event E AT K.F1.I; Event E AT K.F2.I
INNER beside OUTER => flat: F1:T; F2:T; Event E AT F1.I; Event E AT F2.I
"#;

pub const PLUGGED: &str = r#"
== a plug of a block to a socket inside a subapplication, with an event each way and data
ADAPTER AD EVENT_INPUT CF; END_EVENT EVENT_OUTPUT RQ; END_EVENT VAR_OUTPUT V:INT; END_VAR END_ADAPTER
FUNCTION_BLOCK PP PLUGS P:AD; END_PLUGS END_FUNCTION_BLOCK
FUNCTION_BLOCK QQ SOCKETS Q:AD; END_SOCKETS END_FUNCTION_BLOCK
SUBAPPLICATION SB SOCKETS K:AD; END_SOCKETS FBS R:QQ; END_FBS ADAPTER_CONNECTIONS K TO R.Q; END_CONNECTIONS END_SUBAPPLICATION
SUBAPPLICATION TP FBS L:PP; END_FBS SUBAPPS M:SB; END_SUBAPPS ADAPTER_CONNECTIONS L.P TO M.K; END_CONNECTIONS END_SUBAPPLICATION
TP beside SB => flat: L:PP; M.R:QQ; Event L.P.RQ TO M.R.Q.RQ; Event M.R.Q.CF TO L.P.CF; Data L.P.V TO M.R.Q.V
SB beside TP => flat: R:QQ; Adapter K AT R.Q
"#;

#[test]
fn units_have_their_nets_beside_kept_ones(rt: HostRuntime) -> Result<(), Fail> {
    for table in [NETS, VALUES, KEPT, BORDERS, PLUGGED] {
        compare::<Beside>(&rt, rt.alloc(), table)?;
    }
    Ok(())
}

// S11 holds 4,094 instances, and S12 twice as many and two more.
const CHAINED: &str = r#"
S2 beside S1 => flat: X.X:B; X.Y:B; Y.X:B; Y.Y:B
S12 beside S11 => flat: too large
S12 beside S12 => too large: too large
S13 beside S12 => too large: too large
"#;

#[test]
fn a_chain_that_doubles(rt: HostRuntime) -> Result<(), Fail> {
    let table = chain(rt.alloc(), CHAINED)?;
    compare::<Beside>(&rt, rt.alloc(), table.as_str())
}

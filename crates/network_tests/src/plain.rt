//! What units say as networks in plain.
use crate::told::plain_told;
use crate::units::{Question, compare};
use fb_library::Library;
use std::alloc::Global;
use std::test::Fail;

const NETWORKS: &str = r#"
== a subapplication with all that it may have
SUBAPPLICATION S EVENT_INPUT I; END_EVENT EVENT_OUTPUT O:T; END_EVENT VAR_INPUT X:INT; END_VAR VAR_OUTPUT Y:INT; END_VAR PLUGS P:AD; END_PLUGS SOCKETS Q:AD; END_SOCKETS FBS f:b(K:=1); END_FBS SUBAPPS G:C; END_SUBAPPS EVENT_CONNECTIONS I TO F.I; F.O TO G.I; G.O TO O; END_CONNECTIONS DATA_CONNECTIONS X TO F.X; END_CONNECTIONS ADAPTER_CONNECTIONS Q TO F.Q; F.P TO P; END_CONNECTIONS END_SUBAPPLICATION
S
    => Event Input I; Event Output O; Data Input X; Data Output Y; Adapter Output P:AD; Adapter Input Q:AD; Block F:B; Subapplication G:C; Event I TO F.I; Event F.O TO G.I; Event G.O TO O; Data X TO F.X; Adapter Q TO F.Q; Adapter F.P TO P

== a composite block has ports alone
FUNCTION_BLOCK B EVENT_INPUT I; END_EVENT VAR L:INT; X:INT; END_VAR VAR_INPUT X:INT; Z:INT; END_VAR FBS F:M; END_FBS SOCKETS Q:AD; END_SOCKETS EVENT_CONNECTIONS I TO F.I; END_CONNECTIONS END_FUNCTION_BLOCK
B => Event Input I; Data Input Z; Adapter Input Q:AD

== a structure says nothing as a network
TYPE S : STRUCT F:INT; G:U; END_STRUCT END_TYPE
S =>

== a system has no network of its own
SYSTEM Z APPLICATION A1 FBS F:B; END_FBS END_APPLICATION APPLICATION A2 SUBAPPS G:C; H:C; END_SUBAPPS EVENT_CONNECTIONS G.O TO H.I; END_CONNECTIONS END_APPLICATION END_SYSTEM
Z => APPLICATION A1; Block F:B; APPLICATION A2; Subapplication G:C; Subapplication H:C; Event G.O TO H.I
"#;

struct Plain;

impl Question for Plain {
    fn answer(alloc: Global, library: &Library, asked: &str) -> Result<String, Fail> {
        plain_told(alloc, library, asked)
    }
}

#[test]
fn networks_are_what_the_texts_say(rt: HostRuntime) -> Result<(), Fail> {
    compare::<Plain>(&rt, rt.alloc(), NETWORKS)
}

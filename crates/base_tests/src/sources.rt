//! Sources as `scripts/load_branches.py` works out their branches, for `load_maker`.

use load_maker::{MAX_SIZE, is_size, make_source};
use std::test::Fail;

/// The skeleton with a struct of two fields and one assignment, up to its branches, and what follows them.
const BEFORE: &str =
    "#include <core.p4>\n#include <v1model.p4>\nstruct H { }\nstruct M { bit<8> u; bit<8> y; }\nparser P(packet_in b, out H h, inout M m, inout standard_metadata_t s) {\n  state start { transition accept; }\n}\ncontrol V(inout H h, inout M m) { apply { } }\ncontrol I(inout H h, inout M m, inout standard_metadata_t s) {\n  apply {\n    s.egress_spec = 1;\n";

const AFTER: &str =
    "  }\n}\ncontrol E(inout H h, inout M m, inout standard_metadata_t s) { apply { } }\ncontrol C(inout H h, inout M m) { apply { } }\ncontrol D(packet_out b, in H h) { apply { } }\nV1Switch(P(), V(), I(), E(), C(), D()) main;\n";

#[test]
fn sources_are_those_of_the_script(rt: HostRuntime) -> Result<(), Fail> {
    for (number, size, branches) in [
        (
            7,
            6,
            "    if (s.ingress_port == 430) m.y = 58;\n    if (s.ingress_port > 510) m.y = 207;\n    if (s.ingress_port == 287 && s.ingress_port == 288) m.y = 60;\n    if (m.u == 108) m.y = 165;\n    if (s.ingress_port == 431) m.y = 117;\n    if (s.ingress_port > 510) m.y = 151;\n",
        ),
        (u64::MAX, 1, "    if (s.ingress_port == 1) m.y = 136;\n"),
        (
            0,
            9,
            "    if (s.ingress_port == 119) m.y = 22;\n    if (s.ingress_port > 510) m.y = 187;\n    if (s.ingress_port == 384 && s.ingress_port == 385) m.y = 140;\n    if (m.u == 22) m.y = 45;\n    if (s.ingress_port == 120) m.y = 110;\n    if (s.ingress_port > 510) m.y = 137;\n    if (s.ingress_port == 395 && s.ingress_port == 396) m.y = 217;\n    if (m.u == 59) m.y = 220;\n    if (s.ingress_port == 121) m.y = 228;\n",
        ),
    ] {
        let source = make_source(rt.alloc(), number, size)?;
        let expected = format!(in rt.alloc(); "{BEFORE}{branches}{AFTER}")?;
        assert_eq!(rt; source.as_slice(), expected.as_bytes(), "{number} {size}");
    }
    let longest = make_source(rt.alloc(), 7, MAX_SIZE)?;
    assert_eq!(rt; longest.len(), BEFORE.len() + 44_466 + AFTER.len());
    for (size, fits) in [(0, false), (1, true), (1_000, true), (1_001, false)] {
        assert_eq!(rt; is_size(size), fits, "{size}");
    }
    Ok(())
}

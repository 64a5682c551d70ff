//! The lines of refusals that no small module reaches.

use plan_text::{TranslateError, refusal_line};

#[test]
fn too_large_objects_have_their_line(rt: HostRuntime) {
    assert_eq!(rt;
        refusal_line(&TranslateError::OffsetOverflow),
        "refused offset overflow\n"
    );
}

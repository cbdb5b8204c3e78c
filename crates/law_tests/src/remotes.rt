// As what a source of another machine is kept.
use crate::labels::is_label;
use mix_catalog::{SourceKind, SourceSpec};

// Whether a source is that of another machine as declared.
pub fn is_homes(source: &SourceSpec) -> bool {
    let SourceKind::Remote {
        replies,
        requests,
        number,
    } = &source.kind
    else {
        return false;
    };
    source.chunk == 1
        && is_label(source.kind.file(), "my replies")
        && is_label(replies, "my replies")
        && is_label(requests, "requests")
        && *number == 12
        && source.kind.column_count() == 0
}

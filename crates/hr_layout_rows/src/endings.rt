//! How a part has ended, by a word.

use hr_base::Ending;

/// The ending of the name. `full` is a closed block whose `where` is taken.
pub fn named(name: &str) -> Option<Ending> {
    Some(match name {
        "nothing" => Ending::Nothing,
        "applied" => Ending::Applied {
            where_free: true,
            guarded: false,
        },
        "guarded" => Ending::Applied {
            where_free: true,
            guarded: true,
        },
        "closed" => Ending::Closed {
            where_free: true,
            guarded: false,
        },
        "full" => Ending::Closed {
            where_free: false,
            guarded: false,
        },
        "annotated" => Ending::Annotated {
            where_free: true,
            guarded: false,
        },
        "signature" => Ending::Signature,
        "where" => Ending::WhereBlock,
        "fixity" => Ending::Fixity,
        _ => return None,
    })
}

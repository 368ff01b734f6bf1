//! Code that stands in several functions and can't be one.

/// What was found, where something was, or else `Ok(None)` is returned: `let host = found!(address(field));`.
#[macro_export]
macro_rules! found {
    ($found:expr) => {
        match $found {
            Some(value) => value,
            None => return Ok(None),
        }
    };
}

/// Does the same with each text between commas: `for_members!(member in field => { .. })`.
#[macro_export]
macro_rules! for_members {
    ($member:ident in $field:expr => $body:block) => {
        let mut rest = $field;
        'members: while let Some(($member, after)) = $crate::first_part(rest, b',') {
            $body
            rest = after;
        }
        let $member = rest;
        $body
    };
}

use crate::ApiError;
use std::test::Fail;

#[test]
fn texts_of_errors(rt: HostRuntime) -> Result<(), Fail> {
    let rows = [
        (ApiError::NoSuchVar { var: 7 }, "NoSuchVar 7"),
        (ApiError::TooManyVars, "TooManyVars"),
        (ApiError::TooManyLits, "TooManyLits"),
        (ApiError::TooLate, "TooLate"),
        (ApiError::BadCount, "BadCount"),
        (ApiError::Memory, "Memory"),
    ];
    for (error, text) in rows {
        assert_eq!(rt; format!(in rt.alloc(); "{error}")?.as_str(), text);
    }
    Ok(())
}

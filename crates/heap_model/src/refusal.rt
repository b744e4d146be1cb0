use thiserror::Error;

/// The register holds no object.
#[derive(Clone, Copy, Debug, PartialEq, Eq, Error)]
#[error("no object")]
pub struct NoObject;

/// Why a place was not reached. A register without an object is found before an index past the end.
#[derive(Clone, Copy, Debug, PartialEq, Eq, Error)]
pub enum PlaceRefusal {
    #[error("no object")]
    NoObject,
    #[error("no field")]
    NoField,
}

/// Too few fragments were found.
#[derive(Clone, Copy, Debug, PartialEq, Eq, Error)]
#[error("full: need {need}, found {found}")]
pub struct Full {
    pub need: u32,
    pub found: u32,
}

/// Why an array was not made. Spine words are asked for before fragments.
#[derive(Clone, Copy, Debug, PartialEq, Eq, Error)]
pub enum SpaceRefusal {
    #[error("full: need {need}, found {found}")]
    Full { need: u32, found: u32 },
    #[error("spine full: need {need}, used {used}")]
    SpineFull { need: u32, used: u32 },
}

pub(crate) mod address;
pub(crate) mod decode;
pub(crate) mod fragments;
pub(crate) mod words;

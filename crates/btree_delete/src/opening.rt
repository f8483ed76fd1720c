// Opening a file that was closed.
pub(crate) mod free_numbers;
pub(crate) mod measure;
pub(crate) mod open_fault;
pub(crate) mod open_file;
pub(crate) mod survey;

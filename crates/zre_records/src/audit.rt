//! The command `audit`: whether two nodes agree, from captures of both, one after the other.

mod again;
mod auditor;
mod later;
mod seam;
mod watched;

pub use auditor::Auditor;

//! The calls that C makes.

pub mod aggregates;
pub mod answers;
pub mod blocks;
pub mod encode;
pub mod files;
pub mod give_back;
pub mod look;
pub mod make;
pub mod operate;
pub mod passing;
pub mod queries;
pub mod read;
pub mod selections;

//! Surfaces played request by request, against worked examples and against the plain program.

mod backlog;
mod plain;
mod requests;
mod rows;
mod scattered;
mod scene;
mod transforms;

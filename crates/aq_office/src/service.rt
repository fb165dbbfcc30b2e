//! The service of an office: the reply to a whole request over a book and its keeper. It is what the
//! office answers, as it stands or as a page of aq_browser, with the codes, heads and bodies of HTTP.
//!
//! # What it has
//!
//! - `OfficeService`: a book with its routes as a `Service` of aq_serve.
//!
//! # What it promises
//!
//! - The service answers a whole request as the definition says, pages too, and keeps the tables those of
//!   its office (`OfficeService`).
//!
//! # An example
//!
//! ```rust
//! let mut service = OfficeService::new(alloc, book)?;
//! serve(alloc, &mut service, &mut keeper, &mut door, connections)?; // of aq_serve
//! ```

mod office_service;
mod pages;
mod replies;

pub use office_service::OfficeService;

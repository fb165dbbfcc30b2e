//! The service of an office: what it answers a whole request with, over a keeper that is lent for it.
ghost use Rattle.std.specs.Prelude.{◌≡◌, ◌≤◌, length, IfOk, OnErr};
ghost use Rattle.sha2.specs.Sha256.{sha256};
ghost use Rattle.aq_http.specs.Routes.{IsFound};
ghost use Rattle.aq_rules.specs.Limits.{MOST_BYTES};
ghost use Rattle.aq_rules.specs.Office.Load.{posted};
ghost use Rattle.aq_rules.specs.Office.Office.{IsOffice};
ghost use Rattle.aq_keeper.specs.Standing.{standing_of};
ghost use Rattle.aq_listed.specs.LastDay.{last_day};
ghost use Rattle.aq_serve.specs.Answered.{to_found, to_load};
ghost use Rattle.aq_office.specs.Service.Replies.{AnswersBy, LosesBy};

use crate::post_uncounted;
use crate::service::pages::{last_of_all, page_reply};
use crate::service::replies::{load_reply, methods, question_reply};
use aq_base::{Day, Memory};
use aq_book::Book;
use aq_forms::Body;
use aq_http::{Found, Routes, Verb};
use aq_keeper::Keeper;
use aq_serve::{Service, error_reply};
use std::alloc::Global;
use std::marker::Model;

/// An office, and the routes by which it is asked. Contracts see the valid office. Each page needs the last
/// day of the office, which is a walk over its monitors: it is kept until a load may change it.
#[derive(Drop)]
pub struct OfficeService {
    book: Book,
    routes: Routes,
    last: Option<Option<Day>>,
}

impl Model for OfficeService {
    ghost use Rattle.std.specs.Prelude.{◌≡◌, IfSome};
    ghost use Rattle.aq_listed.specs.LastDay.{last_day};
    ghost use Rattle.aq_rules.specs.Office.Office.{IsOffice, Office};

    ghost Value = { Office };

    ghost view = { λ service. service.book };

    ghost invariant = { λ service. IsOffice service.book × IfSome service.last (λ day. day ≡ last_day service.book) };
}

impl OfficeService {
    /// The service of a book.
    pub fn new(alloc: Global, book: Book) -> Result<OfficeService, Memory>
        requires { IsOffice book }
        ensures { IfOk result (λ service. service ≡ book) }
    {
        let routes = Routes::new(alloc)?;
        Ok(OfficeService {
            book,
            routes,
            last: None,
        })
    }

    /// Works out the last day of the office, if it is not kept: once between two loads.
    fn keep_last_day(&mut self)
        ensures { self.new ≡ self.old }
    {
        if self.last.is_none() {
            self.last = Some(last_of_all(&self.book));
        }
    }

    /// The last day of the office with an observation.
    fn last_day(&self) -> Option<Day>
        ensures { result ≡ last_day self.now }
    {
        match &self.last {
            Some(day) => *day,
            None => last_of_all(&self.book),
        }
    }

    /// Answers what was found that a request asks.
    fn answer_found<K: Keeper>(
        &mut self,
        alloc: Global,
        keeper: &mut K,
        found: Found,
        body: &[u8],
        close: bool,
    ) -> Result<Vec<u8>, Memory>
        requires bytes { length body.now ≤ MOST_BYTES }
        requires found { IsFound found }
        ensures answered { IfOk result (λ reply. AnswersBy
            (to_found self.old found body.now) close reply.items
            (standing_of self.old (K.seen keeper.old))
            (standing_of self.new (K.seen keeper.new))) }
        ensures lost { OnErr result (LosesBy (to_found self.old found body.now)
            (standing_of self.old (K.seen keeper.old))
            (standing_of self.new (K.seen keeper.new))) }
    {
        match found {
            Found::Ask(question) => question_reply(alloc, &self.book, &question, close),
            Found::Load(number) => self.answer_load(alloc, keeper, number, body, close),
            Found::Page(asked) => {
                self.keep_last_day();
                page_reply(alloc, &self.book, self.last_day(), &asked, close)
            }
            Found::Status(status) => error_reply(alloc, status, b"", close),
            Found::NotAllowed { post } => error_reply(alloc, 405, methods(post), close),
        }
    }

    /// Posts a load, and answers it. One of too many lines is refused.
    fn answer_load<K: Keeper>(
        &mut self,
        alloc: Global,
        keeper: &mut K,
        number: u32,
        body: &[u8],
        close: bool,
    ) -> Result<Vec<u8>, Memory>
        requires { length body.now ≤ MOST_BYTES }
        ensures answered { IfOk result (λ reply. AnswersBy
            (λ fails. to_load number self.old fails
            (posted self.old number (sha256 body.now) body.now)) close reply.items
            (standing_of self.old (K.seen keeper.old))
            (standing_of self.new (K.seen keeper.new))) }
        ensures lost { OnErr result (LosesBy (λ fails. to_load number self.old fails
            (posted self.old number (sha256 body.now) body.now))
            (standing_of self.old (K.seen keeper.old))
            (standing_of self.new (K.seen keeper.new))) }
    {
        match Body::new(body) {
            Ok(body) => self.answer_body(alloc, keeper, number, &body, close),
            Err(_) => error_reply(alloc, 413, b"", close),
        }
    }

    /// Posts a load whose body is within the limits, and answers it.
    fn answer_body<K: Keeper>(
        &mut self,
        alloc: Global,
        keeper: &mut K,
        number: u32,
        body: &Body<'_>,
        close: bool,
    ) -> Result<Vec<u8>, Memory>
        ensures answered { IfOk result (λ reply. AnswersBy
            (λ fails. to_load number self.old fails
            (posted self.old number (sha256 body.now) body.now)) close reply.items
            (standing_of self.old (K.seen keeper.old))
            (standing_of self.new (K.seen keeper.new))) }
        ensures lost { OnErr result (LosesBy (λ fails. to_load number self.old fails
            (posted self.old number (sha256 body.now) body.now))
            (standing_of self.old (K.seen keeper.old))
            (standing_of self.new (K.seen keeper.new))) }
    {
        self.last = None;
        let posted = post_uncounted(alloc, &mut self.book, keeper, number, body)?;
        load_reply(alloc, number, posted, close)
    }
}

impl<K: Keeper> Service<K> for OfficeService {
    ghost use Rattle.std.specs.Prelude.{◌≤◌, length, IfOk, OnErr};
    ghost use Rattle.aq_keeper.specs.Standing.{standing_of};

    ghost seen = { λ service keeper. standing_of service (K.seen keeper) };

    fn answer(
        &mut self,
        alloc: Global,
        keeper: &mut K,
        verb: Verb,
        target: &[u8],
        body: &[u8],
        close: bool,
    ) -> Result<Vec<u8>, Memory> {
        let found = self.routes.find(verb, target);
        self.answer_found(alloc, keeper, found, body, close)
    }
}

//! The items of one list, in order.
ghost use Rattle.std.specs.Prelude.{◌≡◌, ◌<◌, ◌≤◌, length};
ghost use Rattle.std.specs.Iterator.{YieldsFirst, item_count};
ghost use Rattle.pm_links.specs.Lists.{list_of, IsSound};

use super::links::{LIMIT, Links};
use std::marker::Model;

/// The items of one list that are still to come, in order. Contracts see them as a list.
#[derive(Drop)]
pub struct Items<'a> {
    links: &'a Links,
    // The head of the list; it is what says which items are still to come.
    head: u32,
    cursor: Option<u32>,
}

impl<'a> Model for Items<'a> {
    ghost use Rattle.std.specs.Prelude.{◌≡◌, ℕ, List, true, IfSome};
    ghost use Rattle.pm_links.specs.Lists.{list_of, has, rest_of_walk};

    ghost Value = { List ℕ };

    ghost view = { λ i. rest_of_walk i.cursor (list_of i.links.now i.head) };

    ghost invariant = { λ i. IfSome i.cursor (λ x. has (list_of i.links.now i.head) x ≡ true) };
}

impl Links {
    /// The items of the list of `head`, in order. Each item is one step.
    pub fn items(&self, head: u32) -> Items<'_>
        requires { head < length self.now.lists }
        ensures items { result ≡ list_of self.now head }
        ensures few { length result ≤ LIMIT }
        ensures sound { IsSound self.now }
    {
        let cursor = self.first(head);
        Items {
            links: self,
            head,
            cursor,
        }
    }
}

impl<'a> Iterator for Items<'a> {
    type Item = u32;

    ghost next_gives = { YieldsFirst (λ s. s) };

    ghost remaining = { item_count (λ s. s) };

    fn next(&mut self) -> Option<u32> {
        let item = self.cursor?;
        self.cursor = self.links.next(item);
        Some(item)
    }
}

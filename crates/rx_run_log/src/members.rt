//! The members of a JSON object, put together one after another.
ghost use Rattle.std.specs.Prelude.{◌≡◌, IfOk, IsOk, false};
ghost use Rattle.serde_json.specs.Data.{boolean, no_members, null, object, string};
ghost use Rattle.serde_json.specs.View.{view};
ghost use Rattle.rx_run_log.specs.Log.{number_data, text_data};
ghost use Rattle.rx_run_log.specs.Members.{Puts, members_in};

use serde_json::{Map, Value};
use std::alloc::{AllocError, Global};

/// The members of an object. Once memory ran out some are missing, and `into_value` gives the error.
#[derive(Drop)]
pub(crate) struct Members {
    alloc: Global,
    map: Map<String, Value>,
    lacks: bool,
}

impl Members {
    /// No member.
    pub(crate) fn new(alloc: Global) -> Members
        ensures empty { members_in result ≡ no_members }
        ensures whole { result.lacks ≡ false }
    {
        Members {
            alloc,
            map: Map::new(alloc),
            lacks: false,
        }
    }

    /// The object.
    pub(crate) fn into_value(self) -> Result<Value, AllocError>
        ensures { IfOk result (λ v. (self.lacks ≡ false) × (view v ≡ object (members_in self))) }
    {
        if self.lacks {
            return Err(AllocError);
        }
        Ok(Value::Object(self.map))
    }

    /// Puts a value.
    pub(crate) fn put(&mut self, name: &'static str, value: Value)
        ensures { Puts self.old self.new name.now (view value) }
    {
        self.lacks |= serde_json::put(&mut self.map, self.alloc, name, value).is_err();
    }

    /// Puts a value that memory may be missing for.
    pub(crate) fn put_made(&mut self, name: &'static str, value: Result<Value, AllocError>)
        ensures made { self.new.lacks ≡ false → IsOk value }
        ensures puts { IfOk value (λ v. Puts self.old self.new name.now (view v)) }
    {
        match value {
            Ok(value) => self.put(name, value),
            Err(AllocError) => self.lacks = true,
        }
    }

    /// Puts another object.
    pub(crate) fn object(&mut self, name: &'static str, members: Members)
        ensures whole { self.new.lacks ≡ false → members.lacks ≡ false }
        ensures puts { Puts self.old self.new name.now (object (members_in members)) }
    {
        self.lacks |= members.lacks;
        self.put(name, Value::Object(members.map));
    }

    /// Puts null.
    pub(crate) fn null(&mut self, name: &'static str)
        ensures { Puts self.old self.new name.now null }
    {
        self.put(name, Value::Null);
    }

    /// Puts a number, or null where it isn't known.
    pub(crate) fn number(&mut self, name: &'static str, number: Option<u64>)
        ensures { Puts self.old self.new name.now (number_data number) }
    {
        match number {
            Some(number) => self.put(name, Value::from(number)),
            None => self.null(name),
        }
    }

    /// Puts true or false.
    pub(crate) fn flag(&mut self, name: &'static str, flag: bool)
        ensures { Puts self.old self.new name.now (boolean flag) }
    {
        self.put(name, Value::Bool(flag));
    }

    /// Puts a text.
    pub(crate) fn text(&mut self, name: &'static str, text: &str)
        ensures { Puts self.old self.new name.now (string text.now) }
    {
        match Value::try_from_str(self.alloc, text) {
            Ok(text) => self.put(name, text),
            Err(AllocError) => self.lacks = true,
        }
    }

    /// Puts a text, or null where it isn't known.
    pub(crate) fn known_text(&mut self, name: &'static str, text: Option<&str>)
        ensures { Puts self.old self.new name.now (text_data text.entry) }
    {
        match text {
            Some(text) => self.text(name, text),
            None => self.null(name),
        }
    }
}

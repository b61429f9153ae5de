// The server: a state, and what it answers to a message.

ghost use Rattle.std.specs.Prelude.{◌≡◌, [], ◌∷◌, All, IfOk, OnErr};
ghost use Rattle.language_server.specs.Messages.{IsNotification};

use crate::methods::{Phase, admission, method_of, phase_behind, phase_told};
use crate::notes::notifications;
use editor_features::{
    Document, File, Method, Texts, changed, check_due, closed, copies, document_of, faultless,
    found_in, is_later, key_of, make_due, relates_behind, uri_in, version_in, with_text,
    without_file, without_text,
};
use editor_protocol::{Code, Incoming, Message, Outcome, read};
use serde_json::Value;
use std::alloc::{AllocError, Global};

/// The state of a session: how far it is, the texts that are open, and the files that are known beside them.
pub struct Server {
    pub alloc: Global,
    pub phase: Phase,
    pub texts: Vec<Document>,
    pub files: Vec<File>,
    /// Whether the client takes the places that have to do with a fault.
    pub relates: bool,
}

// Written out, so that a caller's proof sees one call and not the drop of each field.
impl Drop for Server {
    fn drop(self) {
        let Server {
            alloc: _,
            phase: _,
            texts: _texts,
            files: _files,
            relates: _,
        } = self;
    }
}

/// One message.
fn one(alloc: Global, message: Message) -> Result<Vec<Message>, AllocError>
    ensures { IfOk result (λ messages. messages.items ≡ message ∷ []) }
{
    let mut messages = Vec::new(alloc);
    messages.push(message)?;
    Ok(messages)
}

impl Server {
    ghost use Rattle.serde_json.specs.View.{view};
    ghost use Rattle.language_server.specs.Methods.{methods, find_method, admission, phase_told};
    ghost use Rattle.language_server.specs.Serving.{IsOutcome, IsRequested, IsTold, IsRefusal, Serves, IsServed};
    ghost use Rattle.editor_protocol.specs.Kinds.{kind_read};

    /// A session that has not begun.
    pub fn new(alloc: Global) -> Server {
        Server {
            alloc,
            phase: Phase::Fresh,
            texts: Vec::new(alloc),
            files: Vec::new(alloc),
            relates: false,
        }
    }

    /// The texts that are open, and the files that are known beside them.
    fn known(&self) -> Texts<'_> {
        Texts {
            alloc: self.alloc,
            open: self.texts.as_slice(),
            files: self.files.as_slice(),
            relates: self.relates,
        }
    }

    /// Whether the session has ended, and then whether that was asked for before.
    pub fn ending(&self) -> Option<bool> {
        match self.phase {
            Phase::Ended { as_asked } => Some(as_asked),
            _ => None,
        }
    }

    /// What a request that may be made is answered.
    fn found(&self, method: Method, body: &Value) -> Result<Outcome, AllocError> {
        match found_in(self.known(), method, body)? {
            Some(text) => Ok(Outcome::Found(text)),
            None => Ok(Outcome::Refused(Code::InvalidParams)),
        }
    }

    /// The outcome of a request that was admitted or not.
    fn outcome(&self, admitted: Result<Method, Code>, body: &Value) -> Result<Outcome, AllocError>
        ensures { IfOk result (IsOutcome admitted) }
    {
        match admitted {
            Ok(method) => self.found(method, body),
            Err(code) => Ok(Outcome::Refused(code)),
        }
    }

    /// Answers a request.
    fn requested(&mut self, id: Value, name: &str, body: &Value) -> Result<Vec<Message>, AllocError>
        ensures answered { IfOk result (λ messages. IsRequested (admission self.old.phase (find_method methods name.now)) (view id)
            self.old self.new messages.items) }
        ensures same { self.new.texts ≡ self.old.texts }
    {
        let admitted = admission(self.phase, method_of(name));
        let outcome = self.outcome(admitted, body)?;
        let messages = one(self.alloc, Message::Response { id, outcome })?;
        self.phase = phase_behind(self.phase, admitted);
        self.relates = relates_behind(self.relates, admitted, body);
        Ok(messages)
    }

    /// Puts texts in place of those that are open, and tells the faults of those that are due, behind what is told already.
    fn settle(
        &mut self,
        texts: Vec<Document>,
        told: Vec<Vec<u8>>,
    ) -> Result<Vec<Message>, AllocError>
        ensures told { IfOk result (λ messages. All IsNotification messages.items) }
        ensures phase { self.new.phase ≡ self.old.phase }
        ensures failed { OnErr result (self.new.texts.items ≡ self.old.texts.items) }
    {
        let mut open = texts;
        let mut told = told;
        check_due(
            self.alloc,
            &mut open,
            self.files.as_slice(),
            self.relates,
            &mut told,
        )?;
        let messages = notifications(self.alloc, told.as_slice())?;
        self.texts = open;
        Ok(messages)
    }

    /// The same, where a text has changed: what it is a part of is due.
    fn settle_anew(
        &mut self,
        texts: Vec<Document>,
        told: Vec<Vec<u8>>,
    ) -> Result<Vec<Message>, AllocError>
        ensures told { IfOk result (λ messages. All IsNotification messages.items) }
        ensures phase { self.new.phase ≡ self.old.phase }
        ensures failed { OnErr result (self.new.texts.items ≡ self.old.texts.items) }
    {
        let mut open = texts;
        make_due(self.alloc, &mut open, self.files.as_slice())?;
        self.settle(open, told)
    }

    /// Keeps a text in place of the one of its name, and tells the faults.
    fn keep(
        &mut self,
        uri: &str,
        version: Option<i64>,
        text: Vec<u8>,
    ) -> Result<Vec<Message>, AllocError>
        ensures told { IfOk result (λ messages. All IsNotification messages.items) }
        ensures phase { self.new.phase ≡ self.old.phase }
        ensures failed { OnErr result (self.new.texts.items ≡ self.old.texts.items) }
    {
        let document = Document::new(self.alloc, uri, version, text)?;
        let texts = with_text(self.alloc, self.texts.as_slice(), document)?;
        self.settle_anew(texts, Vec::new(self.alloc))
    }

    /// Forgets the file of a text's name.
    fn forget(&mut self, uri: &str) -> Result<(), AllocError>
        ensures phase { self.new.phase ≡ self.old.phase }
        ensures same { self.new.texts ≡ self.old.texts }
    {
        let key = key_of(self.alloc, uri.as_bytes())?;
        let files = without_file(self.alloc, self.files.as_slice(), key.as_slice())?;
        self.files = files;
        Ok(())
    }

    /// A text is opened.
    fn open(&mut self, body: &Value) -> Result<Vec<Message>, AllocError>
        ensures told { IfOk result (λ messages. All IsNotification messages.items) }
        ensures phase { self.new.phase ≡ self.old.phase }
        ensures failed { OnErr result (self.new.texts.items ≡ self.old.texts.items) }
    {
        let text = body
            .pointer("/params/textDocument/text")
            .and_then(Value::as_str);
        let (Some(uri), Some(text)) = (uri_in(body), text) else {
            return Ok(Vec::new(self.alloc));
        };
        let text = Vec::from_slice(self.alloc, text.as_bytes())?;
        self.forget(uri)?;
        self.keep(uri, version_in(body), text)
    }

    /// A text is changed. One that isn't open, a version that isn't later, and what is no change leave it as it was.
    fn change(&mut self, body: &Value) -> Result<Vec<Message>, AllocError>
        ensures told { IfOk result (λ messages. All IsNotification messages.items) }
        ensures phase { self.new.phase ≡ self.old.phase }
        ensures failed { OnErr result (self.new.texts.items ≡ self.old.texts.items) }
    {
        let none = Vec::new(self.alloc);
        let Some(uri) = uri_in(body) else {
            return Ok(none);
        };
        let Some(document) = document_of(self.texts.as_slice(), uri) else {
            return Ok(none);
        };
        let version = version_in(body);
        if !is_later(document.version, version) {
            return Ok(none);
        }
        match changed(self.alloc, document.text.as_slice(), body)? {
            Some(text) => self.keep(uri, version, text),
            None => Ok(none),
        }
    }

    /// What is told where the text of a name is closed.
    fn told_at_end(&self, uri: &str) -> Result<Vec<Vec<u8>>, AllocError> {
        if let Some(document) = document_of(self.texts.as_slice(), uri) {
            return closed(self.known(), document);
        }
        let mut told = Vec::new(self.alloc);
        told.push(faultless(self.alloc, uri.as_bytes())?)?;
        Ok(told)
    }

    /// A text is closed, and its faults go.
    fn close(&mut self, body: &Value) -> Result<Vec<Message>, AllocError>
        ensures told { IfOk result (λ messages. All IsNotification messages.items) }
        ensures phase { self.new.phase ≡ self.old.phase }
        ensures failed { OnErr result (self.new.texts.items ≡ self.old.texts.items) }
    {
        let Some(uri) = uri_in(body) else {
            return Ok(Vec::new(self.alloc));
        };
        let told = self.told_at_end(uri)?;
        let texts = without_text(self.alloc, self.texts.as_slice(), uri)?;
        self.settle_anew(texts, told)
    }

    /// A file was saved: all files are looked at anew.
    fn save(&mut self) -> Result<Vec<Message>, AllocError>
        ensures told { IfOk result (λ messages. All IsNotification messages.items) }
        ensures phase { self.new.phase ≡ self.old.phase }
        ensures failed { OnErr result (self.new.texts.items ≡ self.old.texts.items) }
    {
        self.files = Vec::new(self.alloc);
        let texts = copies(self.alloc, self.texts.as_slice())?;
        self.settle_anew(texts, Vec::new(self.alloc))
    }

    /// The key of a file that has to be known, which is its name without escapes: `supply` gives it. Fails only where no host memory is left.
    pub fn wanted(&self) -> Result<Option<Vec<u8>>, AllocError> {
        let texts = self.known();
        for document in texts.open {
            if let Some(key) = texts.wanted_for(document)? {
                return Ok(Some(key));
            }
        }
        Ok(None)
    }

    /// Takes the bytes of a file that was wanted, or that it isn't there, and tells the faults of the texts that waited for it. Fails only where
    /// no host memory is left, and the texts are then as they were.
    pub fn supply(
        &mut self,
        key: Vec<u8>,
        bytes: Option<Vec<u8>>,
    ) -> Result<Vec<Message>, AllocError>
        ensures told { IfOk result (λ messages. All IsNotification messages.items) }
        ensures phase { self.new.phase ≡ self.old.phase }
        ensures failed { OnErr result (self.new.texts.items ≡ self.old.texts.items) }
    {
        self.files.push(File { key, bytes })?;
        let texts = copies(self.alloc, self.texts.as_slice())?;
        self.settle(texts, Vec::new(self.alloc))
    }

    /// Does what a notification says while the server is initialized. One that is unknown says nothing.
    fn told(&mut self, name: &str, body: &Value) -> Result<Vec<Message>, AllocError>
        ensures told { IfOk result (λ messages. All IsNotification messages.items) }
        ensures phase { self.new.phase ≡ self.old.phase }
        ensures failed { OnErr result (self.new.texts.items ≡ self.old.texts.items) }
    {
        match name {
            "textDocument/didOpen" => self.open(body),
            "textDocument/didChange" => self.change(body),
            "textDocument/didClose" => self.close(body),
            "textDocument/didSave" | "workspace/didChangeWatchedFiles" => self.save(),
            _ => Ok(Vec::new(self.alloc)),
        }
    }

    /// Does what a notification says. Nothing is answered to it.
    fn notified(&mut self, name: &str, body: &Value) -> Result<Vec<Message>, AllocError>
        ensures told { IfOk result (λ messages. IsTold self.old.phase self.old self.new messages.items) }
        ensures phase { IfOk result (λ _. self.new.phase ≡ phase_told self.old.phase name.now) }
        ensures failed { OnErr result (self.new.texts.items ≡ self.old.texts.items) }
    {
        let phase = phase_told(self.phase, name);
        let messages = match self.phase {
            Phase::Ready => self.told(name, body)?,
            _ => Vec::new(self.alloc),
        };
        self.phase = phase;
        Ok(messages)
    }

    /// The answer to what is no message.
    pub fn refuse(&self, code: Code) -> Result<Vec<Message>, AllocError>
        ensures { IfOk result (λ messages. IsRefusal code messages.items) }
    {
        one(
            self.alloc,
            Message::Response {
                id: Value::Null,
                outcome: Outcome::Refused(code),
            },
        )
    }

    /// Answers a message that was read.
    fn answer(&mut self, incoming: Incoming) -> Result<Vec<Message>, AllocError>
        ensures served { IfOk result (λ messages. Serves (kind_read incoming) self.old self.new messages.items) }
        ensures failed { OnErr result (self.new.texts.items ≡ self.old.texts.items) }
    {
        match incoming {
            Incoming::Request { id, method, body } => self.requested(id, method.as_str(), &body),
            Incoming::Notification { method, body } => self.notified(method.as_str(), &body),
            Incoming::Invalid(code) => self.refuse(code),
        }
    }

    /// Answers a message. Fails only where no host memory is left, and the texts are then as they were.
    pub fn serve(&mut self, message: &[u8]) -> Result<Vec<Message>, AllocError>
        // a request gets one response with its id, a notification none, and what is neither one error; a text is changed by notifications alone,
        // and the phase by a request that may be made and by `exit`
        ensures served { IfOk result (λ messages. IsServed message.now self.old self.new messages.items) }
        ensures failed { OnErr result (self.new.texts.items ≡ self.old.texts.items) }
    {
        let incoming = read(self.alloc, message)?;
        self.answer(incoming)
    }
}

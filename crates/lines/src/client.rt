// A question line of the program `client`, behind its first line and the client's rules. Client and rules stay two parameters, since
// `authinfo` takes them so, and these functions hand them on.
ghost use Rattle.std.specs.Prelude.{◌≡◌, length};
ghost use Rattle.std.specs.Option.{unwrap_or};
ghost use Rattle.json_text.specs.Access.{decoded_into};
ghost use Rattle.authinfo.specs.Given.{given};
ghost use Rattle.authinfo.specs.Answers as answers;
ghost use Rattle.lines.specs.Client as client;
ghost use Rattle.lines.specs.Said as said;
ghost use Rattle.lines.specs.Reading as spec;

use crate::array::Array;
use crate::elements::{form, given_at, text_at};
use crate::output::{refused_at, says};
use crate::{Form, Header, Said, Word};
use authinfo::ask::{client_publish, client_subscribe};
use authinfo::client::Client;
use authinfo::{PublishAnswer, SubscribeAnswer};
use rule::listed::{number_at, truth_at};
use rule::{Fault, LINE, Refusal};
use text::front;

// No question, or no client: error 5, line 0.
#[tactic(auto, unfolding(crate::specs::Said::refused_at, rule::specs::Refusals::number))]
fn no_question() -> Said
    ensures { result ≡ said.refused_at 5 0 }
{
    refused_at(Refusal::NotJson, 0)
}

// What is said of a subscribe. Two functions for the two questions, as in `asking`: their answers are two enums, and a trait would share the arm
// of a refusal alone.
#[tactic(auto, unfolding(crate::specs::Client::reply_said, crate::specs::Client::decision_said, crate::specs::Said::refused_with, authinfo::specs::Answers::subscribe_says))]
fn subscribe_said(answer: Result<SubscribeAnswer, Fault>) -> Said
    ensures { result ≡ client.reply_said (answers.subscribe_says answer) }
{
    match answer {
        Ok(SubscribeAnswer::Allow(rule, _)) => says(Word::Allow, rule as u64),
        Ok(SubscribeAnswer::Refuse(rule)) => says(Word::Refuse, rule as u64),
        Ok(SubscribeAnswer::NoDecision) => says(Word::NoDecision, 0),
        Err(fault) => refused_at(fault.cause, fault.line),
    }
}

// What is said of a publish.
#[tactic(auto, unfolding(crate::specs::Client::reply_said, crate::specs::Client::decision_said, crate::specs::Said::refused_with, authinfo::specs::Answers::publish_says))]
fn publish_said(answer: Result<PublishAnswer, Fault>) -> Said
    ensures { result ≡ client.reply_said (answers.publish_says answer) }
{
    match answer {
        Ok(PublishAnswer::Allow(rule)) => says(Word::Allow, rule as u64),
        Ok(PublishAnswer::Refuse(rule, true)) => says(Word::Drop, rule as u64),
        Ok(PublishAnswer::Refuse(rule, false)) => says(Word::Refuse, rule as u64),
        Ok(PublishAnswer::NoDecision) => says(Word::NoDecision, 0),
        Err(fault) => refused_at(fault.cause, fault.line),
    }
}

// The client of a first line, if all that is read of it is right and nothing stands behind it. Its texts are decoded into their buffers.
#[tactic(auto, unfolding(crate::specs::Reading::header_here, crate::specs::Reading::nothing_at, crate::specs::Reading::with_truth, crate::specs::Reading::with_name))]
fn client_at(array: &Array, ids: &mut [u8], names: &mut [u8]) -> Option<Header>
    ensures value { result ≡ spec.header_here (length ids.old) (length names.old) array.now.line.now array.now.at }
    ensures ids_after { ids.new ≡ decoded_into ids.old (spec.string_from array.now.line.now array.now.at.second) }
    ensures names_after { names.new ≡ decoded_into names.old (spec.string_from array.now.line.now array.now.at.third) }
{
    let Array { line, at } = *array;
    let id = text_at(line, at.second, ids);
    let name = given_at(line, at.third, names);
    let superuser = truth_at(line, at.first);
    if at.fourth.is_some() {
        return None;
    }
    Some(Header {
        superuser: superuser?,
        id: id.ok()?,
        name: name?,
    })
}

// A subscribe line.
fn ask_subscribe(asker: &Client, rules: &[u8], array: &Array) -> Option<Said>
    ensures { unwrap_or result (said.refused_at 5 0) ≡ client.question_said asker.now rules.now (client.subscribe_in (spec.elements array.now.line.now)) }
{
    if array.at.fourth.is_some() {
        return None;
    }
    let qos = number_at(array.line, array.at.second)?;
    let mut topics = [0; LINE];
    let topic = text_at(array.line, array.at.third, &mut topics).ok()?;
    let answer = client_subscribe(asker, rules, qos, front(&topics, topic));
    Some(subscribe_said(answer))
}

// A publish line.
fn ask_publish(asker: &Client, rules: &[u8], array: &Array) -> Option<Said>
    ensures { unwrap_or result (said.refused_at 5 0) ≡ client.question_said asker.now rules.now (client.publish_in (spec.elements array.now.line.now)) }
{
    if array.at.sixth.is_some() {
        return None;
    }
    let qos = number_at(array.line, array.at.second)?;
    let retain = truth_at(array.line, array.at.third)?;
    let disconnect = truth_at(array.line, array.at.fourth)?;
    let mut topics = [0; LINE];
    let topic = text_at(array.line, array.at.fifth, &mut topics).ok()?;
    let answer = client_publish(asker, rules, qos, retain, disconnect, front(&topics, topic));
    Some(publish_said(answer))
}

// A question line of a client.
fn answer_question(asker: &Client, rules: &[u8], array: &Array) -> Option<Said>
    ensures { unwrap_or result (said.refused_at 5 0) ≡ client.question_said asker.now rules.now (client.question_in (spec.elements array.now.line.now)) }
{
    match form(array.line, array.at.first)? {
        Form::Subscribe => ask_subscribe(asker, rules, array),
        Form::Publish => ask_publish(asker, rules, array),
        _ => None,
    }
}

// What is said of the line, if it is a question and the first line a client.
fn said_of(header: &[u8], rules: &[u8], line: &[u8]) -> Option<Said>
    ensures { unwrap_or result (said.refused_at 5 0) ≡ client.client_said header.now rules.now line.now }
{
    if !Array::is_one(header) || !Array::is_one(line) {
        return None;
    }
    let mut ids = [0; LINE];
    let mut names = [0; LINE];
    let h = client_at(&Array::of(header), &mut ids, &mut names)?;
    let asker = Client::new(h.superuser, front(&ids, h.id), h.name, &names);
    answer_question(&asker, rules, &Array::of(line))
}

// What is said of the line, behind this first line and these rules.
pub fn client_answer(header: &[u8], rules: &[u8], line: &[u8]) -> Said
    ensures { result ≡ client.client_said header.now rules.now line.now }
{
    said_of(header, rules, line).unwrap_or(no_question())
}

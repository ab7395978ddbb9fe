//! What each message has by its types. None of these functions does anything.
ghost use Rattle.std.specs.Prelude.{◌^◌, ◌<◌};
ghost use Rattle.std.specs.List.{AllByRecursion};
ghost use Rattle.std.specs.Str.{IsUtf8};
ghost use Rattle.rpc_codec_parts.specs.Fitting.{FitsDescriptor, FitsOp, FitsPath, FitsTarget};
ghost use Rattle.rpc_codec.specs.Laws.{FitsContext, FitsResolved};
ghost use Rattle.rpc_outgoing.specs.Widths.{BodyHas, CallHas, Has, PayloadHas, PlainHas};

use rpc_msg::{
    Call, Descriptor, DisembargoContext, Exception, Message, Op, Path, Payload, PlainMessage,
    ResolvedTo, Return, ReturnBody, Target,
};

pub(crate) fn fit(message: &Message)
    ensures { Has message.now }
{
    match message {
        Message::Plain(plain) => fit_plain(plain),
        Message::Unimplemented(plain) => fit_plain(plain),
    }
}

fn fit_plain(message: &PlainMessage)
    ensures { PlainHas message.now }
{
    match message {
        PlainMessage::Abort(exception) => fit_exception(exception),
        PlainMessage::Bootstrap(question) => fit_32(question.0),
        PlainMessage::Call(call) => fit_call(call),
        PlainMessage::Return(said) => fit_return(said),
        PlainMessage::Finish(finish) => fit_32(finish.question.0),
        PlainMessage::Resolve(resolve) => {
            fit_32(resolve.promise.0);
            fit_resolved(&resolve.to);
        }
        PlainMessage::Release(release) => {
            fit_32(release.export.0);
            fit_32(release.count);
        }
        PlainMessage::Disembargo(disembargo) => {
            fit_target(&disembargo.target);
            fit_context(&disembargo.context);
        }
        PlainMessage::Other(_) => {}
    }
}

fn fit_call(call: &Call)
    ensures { CallHas call.now }
{
    fit_32(call.question.0);
    fit_64(call.interface);
    fit_16(call.method);
    fit_target(&call.target);
    fit_payload(&call.payload, call.descriptors.as_slice());
}

fn fit_return(said: &Return)
    ensures { (said.now.answer.0 < 2 ^ 32) × BodyHas said.now.body }
{
    fit_32(said.answer.0);
    fit_body(&said.body);
}

fn fit_body(body: &ReturnBody)
    ensures { BodyHas body.now }
{
    match body {
        ReturnBody::Results(payload, descriptors) => fit_payload(payload, descriptors.as_slice()),
        ReturnBody::Exception(exception) => fit_exception(exception),
        ReturnBody::Canceled => {}
    }
}

fn fit_payload(payload: &Payload, descriptors: &[Descriptor])
    ensures { PayloadHas payload.now descriptors.now }
{
    let _bytes = payload.bytes();
    fit_descriptors(descriptors);
}

fn fit_descriptors(descriptors: &[Descriptor])
    ensures { AllByRecursion FitsDescriptor descriptors.now }
{
    for descriptor in descriptors {
        fit_descriptor(descriptor);
    }
}

fn fit_descriptor(descriptor: &Descriptor)
    ensures { FitsDescriptor descriptor.now }
{
    match descriptor {
        Descriptor::None => {}
        Descriptor::SenderHosted(id) => fit_32(id.0),
        Descriptor::SenderPromise(id) => fit_32(id.0),
        Descriptor::ReceiverHosted(id) => fit_32(id.0),
        Descriptor::ReceiverAnswer(question, path) => {
            fit_32(question.0);
            fit_path(path);
        }
    }
}

fn fit_target(target: &Target)
    ensures { FitsTarget target.now }
{
    match target {
        Target::ImportedCap(id) => fit_32(id.0),
        Target::PromisedAnswer(question, path) => {
            fit_32(question.0);
            fit_path(path);
        }
    }
}

fn fit_path(path: &Path)
    ensures { FitsPath path.now }
{
    fit_ops(path.as_slice());
}

fn fit_ops(ops: &[Op])
    ensures { AllByRecursion FitsOp ops.now }
{
    for op in ops {
        fit_op(*op);
    }
}

fn fit_op(op: Op)
    ensures { FitsOp op }
{
    match op {
        Op::Noop => {}
        Op::Field(_number) => {}
    }
}

fn fit_resolved(to: &ResolvedTo)
    ensures { FitsResolved to.now }
{
    match to {
        ResolvedTo::Cap(descriptor) => fit_descriptor(descriptor),
        ResolvedTo::Exception(exception) => fit_exception(exception),
    }
}

fn fit_context(context: &DisembargoContext)
    ensures { FitsContext context.now }
{
    match context {
        DisembargoContext::SenderLoopback(id) => fit_32(id.0),
        DisembargoContext::ReceiverLoopback(id) => fit_32(id.0),
    }
}

fn fit_exception(exception: &Exception)
    ensures { IsUtf8 exception.now.reason }
{
    fit_text(exception.reason.as_str());
}

fn fit_text(_text: &str)
    ensures { IsUtf8 _text.now }
{}

fn fit_16(_number: u16)
    ensures { _number < 2 ^ 16 }
{}

fn fit_32(_number: u32)
    ensures { _number < 2 ^ 32 }
{}

fn fit_64(_number: u64)
    ensures { _number < 2 ^ 64 }
{}

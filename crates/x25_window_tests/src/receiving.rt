use x25_bits::Seq;
use x25_window::Receiver;

// Whether the number behind the awaited one is taken, the awaited one, and that once more; and which is awaited then.
fn taken(receiver: &mut Receiver, number: u8) -> (bool, bool, bool, u8) {
    let awaited = Seq::modulo(number);
    let early = receiver.accept(awaited.next());
    let first = receiver.accept(awaited);
    let again = receiver.accept(awaited);
    (early, first, again, receiver.wanted().get())
}

#[test]
fn only_the_awaited_number_is_taken(rt: HostRuntime) {
    let mut receiver = Receiver::new();
    for number in 0..9u8 {
        let found = taken(&mut receiver, number);
        assert_eq!(rt; found, (false, true, false, (number + 1) % 8), "{number}");
    }
}

// The bank's names in the book of returned receipts, without accents.
ghost use Rattle.std.specs.Prelude.{◌≡◌};

use crate::returned::{
    HEADER, INFORMATION, PIX_LINK, QR_CODE, ReturnedReceipts, TRAILER, TRANSACTION,
};
use layouts::kinds::Kind;
use layouts::named::Named;

static KINDS: [Kind; 6] = [HEADER, TRANSACTION, INFORMATION, PIX_LINK, QR_CODE, TRAILER];

static HEADER_NAMES: [&'static str; 19] = [
    "TIPO DE REGISTRO",
    "CODIGO DE RETORNO",
    "LITERAL DE RETORNO",
    "CODIGO DO SERVICO",
    "LITERAL DE SERVICO",
    "ISPB PARTICIPANTE",
    "CODIGO DE INSCRICAO",
    "CPF CNPJ",
    "AGENCIA",
    "CONTA",
    "TIPO CONTA",
    "CHAVE PIX",
    "DATA DE GERACAO",
    "CODIGO DO CONVENIO",
    "EXCLUSIVO PSP RECEBEDOR",
    "CODIGO DO ERRO",
    "BRANCOS",
    "VERSAO DO ARQUIVO",
    "NUMERO SEQUENCIAL",
];

static TRANSACTION_NAMES: [&'static str; 32] = [
    "TIPO DE REGISTRO",
    "ISPB PARTICIPANTE",
    "CODIGO DE INSCRICAO",
    "CPF CNPJ",
    "AGENCIA",
    "CONTA",
    "TIPO CONTA",
    "CHAVE PIX",
    "TIPO COBRANCA",
    "COD. DO MOVIMENTO",
    "DATA DO MOVIMENTO",
    "IDENTIFICADOR",
    "EXPIRACAO",
    "DATA DE VENCIMENTO",
    "VALOR ORIGINAL",
    "VALOR JUROS",
    "VALOR MULTA",
    "VALOR DESCONTO/ABATIMENTO",
    "VALOR FINAL",
    "VALOR PAGO",
    "TARIFA DE COBRANCA",
    "CODIGO DE INSCRICAO DEVEDOR",
    "CPFCNPJ DEVEDOR",
    "MENSAGEM PAGADOR FINAL",
    "CODIGO DE INSCRICAO PAGADOR FINAL",
    "CPFCNPJ PAGADOR FINAL",
    "NOME PAGADOR FINAL",
    "COD. DE LIQUIDACAO",
    "END TO END ID",
    "CODIGO DE ERRO",
    "BRANCOS",
    "NUMERO SEQUENCIAL",
];

static INFORMATION_NAMES: [&'static str; 9] = [
    "TIPO DE REGISTRO",
    "IDENTIFICADOR",
    "NOME",
    "VALOR",
    "NOME",
    "VALOR",
    "BRANCOS",
    "NUMERO SEQUENCIAL DETALHE",
    "NUMERO SEQUENCIAL INFOADICIONAIS",
];

static PIX_LINK_NAMES: [&'static str; 9] = [
    "TIPO DE REGISTRO",
    "CHAVE PIX",
    "COD. DO MOVIMENTO",
    "DATA DO MOVIMENTO",
    "IDENTIFICADOR",
    "PIX LINK",
    "LOCATION",
    "BRANCOS",
    "NUMERO SEQUENCIAL",
];

static QR_CODE_NAMES: [&'static str; 9] = [
    "TIPO DE REGISTRO",
    "CHAVE PIX",
    "COD. DE MOVIMENTO",
    "DATA DE MOVIMENTO",
    "IDENTIFICADOR",
    "EMV DO QR CODE",
    "LOCATION",
    "BRANCOS",
    "NUMERO SEQUENCIAL DO ARQUIVO",
];

static TRAILER_NAMES: [&'static str; 8] = [
    "TIPO DE REGISTRO",
    "CODIGO DE RETORNO",
    "CODIGO DE SERVICO",
    "ISPB",
    "CODIGO DE ERROS",
    "BRANCOS",
    "QTDE DE DETALHES",
    "NUMERO SEQUENCIAL",
];

impl Named for ReturnedReceipts {
    fn kinds(&self) -> &'static [Kind] {
        &KINDS
    }

    fn title(&self, kind: Kind) -> &'static str {
        match kind.mark as char {
            '0' => "REGISTRO HEADER DE ARQUIVO",
            '1' => "REGISTRO TRANSACAO",
            '2' => "REGISTRO DETALHE INFORMACOES ADICIONAIS",
            '3' => "REGISTRO TRANSACAO (GERACAO QR CODE - PIX LINK)",
            '4' => "REGISTRO TRANSACAO (GERACAO QR CODE - IMAGEM)",
            '9' => "REGISTRO TRAILER",
            _ => "",
        }
    }

    fn names(&self, kind: Kind) -> &'static [&'static str] {
        match kind.mark as char {
            '0' => &HEADER_NAMES,
            '1' => &TRANSACTION_NAMES,
            '2' => &INFORMATION_NAMES,
            '3' => &PIX_LINK_NAMES,
            '4' => &QR_CODE_NAMES,
            '9' => &TRAILER_NAMES,
            _ => &[],
        }
    }
}
